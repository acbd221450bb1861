//! The handle that an open makes.
ghost use Rattle.std.specs.Prelude.{◌≡◌};
ghost use Rattle.service_state.specs.Tables.{content_in};
ghost use Rattle.path_requests.specs.Asked.{FixesHandle, kind_by};

use open_options::OpenSpec;
use pps_types::{Bytes, Conn, Handle, HandleKind, Mode};
use service_state::Tables;
use sub_reader::Opening;

/// The kind of handle that an open makes, where a server object is at its path or not.
pub(crate) fn kind_opened(spec: &OpenSpec, is_served: bool) -> HandleKind
    ensures { result ≡ kind_by spec.now is_served }
{
    if spec.server() {
        return HandleKind::Server;
    }
    if spec.all() {
        if spec.deltadir() {
            return HandleKind::Names;
        }
        return HandleKind::Directory {
            delta: spec.delta(),
        };
    }
    if is_served {
        return HandleKind::Client;
    }
    HandleKind::Object {
        delta: spec.delta(),
    }
}

/// What an open fixes for its handle, beside the names of its path. It takes no memory.
pub(crate) fn new_opening(
    tables: &Tables,
    conn: Conn,
    mode: Mode,
    spec: OpenSpec,
    kind: HandleKind,
    number: Handle,
) -> (Vec<Bytes>, Opening)
    requires { number ≡ (content_in tables.now).next_handle }
    ensures path { result.0.items ≡ spec.names }
    ensures connection { result.1.connection ≡ conn }
    ensures kind { result.1.kind ≡ kind }
    ensures number { result.1.number ≡ (content_in tables.now).next_handle }
    ensures opening { FixesHandle (content_in tables.now) conn mode spec kind result.1 }
{
    let limit = spec.limit().unwrap_or(tables.default_limit());
    let (path, options) = spec.into_parts();
    let opening = Opening {
        number,
        connection: conn,
        kind,
        reads: mode.r,
        writes: mode.w,
        options,
        limit,
    };
    (path.into_names(), opening)
}
