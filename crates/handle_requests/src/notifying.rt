//! Notices, as `ionotify` of the QNX C library gives and arms them.
ghost use Rattle.std.specs.Prelude.{◌≡◌, true, false, nat_lt, Some, IfOk, IfErr, OnOk};
ghost use Rattle.pps_types.specs.declared.event.Action.{Action as ActionAsked};
ghost use Rattle.pps_types.specs.Content as content;
ghost use Rattle.pps_types.specs.Outbox.{arms};
ghost use Rattle.notify_box.specs.Connections.{AreOwned};
ghost use Rattle.service_state.specs.Tables.{content_in};
ghost use Rattle.service_state.specs.Refused.{AllPass, RefusedBy, Fails, is_armed_in};
ghost use Rattle.handle_requests.specs.Own.{own_reads, own_news, IfOwn};
ghost use Rattle.handle_requests.specs.Notices.{notice_checks, code_checks, IsNoticed, IsNoticeEffect, HasPulseRoom};

use crate::own::{SeenHandle, own_asked};
use pps_types::limits::CODE_MAX;
use pps_types::{Action, Conn, Handle, Refusal};
use service_state::Tables;
use sub_reader::Pulse;

/// What a Notify answers, and what it arms.
#[derive(Clone, Copy, Debug, PartialEq, Eq)]
pub struct Notified {
    /// Whether the handle has news.
    pub news: bool,
    /// The pulse that is to be armed on it.
    pub pulse: Option<Pulse>,
    /// Whether a pulse was armed on it before.
    pub was_armed: bool,
}

// Whether a Notify arms.
fn does_arm(action: Action, news: bool) -> bool
    ensures { result ≡ arms action news }
{
    match action {
        Action::Poll => false,
        Action::Pollarm => !news,
        Action::Tranarm => true,
    }
}

// The connection's own handle, where it can be asked for notices, with a pulse of that code.
#[inline(always)]
fn check_asked(
    tables: &Tables,
    conn: Conn,
    handle: Handle,
    code: u8,
) -> Result<SeenHandle<'_>, Refusal>
    ensures reads { OnOk result (own_reads tables.now conn handle ≡ Some true) }
    ensures news { IfOk result (λ asked. IfOwn tables.now conn handle
        (λ own. asked.glance.has_news ≡ content.news own)) }
    ensures armed { IfOk result (λ asked. is_armed_in tables.now conn handle
        ≡ Some asked.glance.is_armed) }
    ensures code { OnOk result (nat_lt 127 code ≡ false) }
    ensures err { IfErr result (λ r. (action : ActionAsked)
        → RefusedBy (code_checks tables.now conn handle action code) r) }
{
    let Some(asked) = own_asked(tables, conn, handle) else {
        return Err(Refusal::BadHandle);
    };
    if !asked.own.reads() {
        return Err(Refusal::BadMode);
    }
    if code > CODE_MAX {
        return Err(Refusal::BadArgument);
    }
    Ok(asked)
}

// What is answered, and what is to be armed where nothing else refuses it.
#[inline(always)]
fn noticed(
    tables: &Tables,
    conn: Conn,
    handle: Handle,
    action: Action,
    pulse: Pulse,
) -> Result<Notified, Refusal>
    ensures ok { IfOk result (λ n. IsNoticed (content_in tables.now) conn handle action pulse n) }
    ensures armed { IfOk result (λ n. is_armed_in tables.now conn handle ≡ Some n.was_armed) }
    ensures err { IfErr result
        (λ r. RefusedBy (notice_checks tables.now conn handle action pulse) r) }
{
    let asked = match check_asked(tables, conn, handle, pulse.code) {
        Err(refusal) => return Err(refusal),
        Ok(asked) => asked,
    };
    let news = asked.glance.has_news;
    let pulse = if does_arm(action, news) {
        Some(pulse)
    } else {
        None
    };
    Ok(Notified {
        news,
        pulse,
        was_armed: asked.glance.is_armed,
    })
}

/// Whether a handle of a connection has news, whether a pulse is armed on it, and the pulse that is to be armed on it, for
/// which the memory is taken. What stands stays.
///
/// It is BadHandle where the connection has no such handle, BadMode where the handle isn't open for reading, BadArgument
/// where the code is above 127, and where a pulse is to be armed, OutboxFull where the connection has no place for it. Else
/// OutOfMemory is the only error, and comes only where a pulse is to be armed.
#[inline(always)]
pub fn notify(
    tables: &mut Tables,
    conn: Conn,
    handle: Handle,
    action: Action,
    pulse: Pulse,
) -> Result<Notified, Refusal>
    requires { AreOwned (content_in tables.old) }
    ensures content { content_in tables.new ≡ content_in tables.old }
    ensures names { tables.new.names ≡ tables.old.names }
    ensures handles { tables.new.handles ≡ tables.old.handles }
    ensures passes { OnOk result (AllPass (notice_checks tables.old conn handle action pulse)) }
    ensures news { IfOk result (λ n. own_news tables.old conn handle ≡ Some n.news) }
    ensures armed { IfOk result (λ n. is_armed_in tables.old conn handle ≡ Some n.was_armed) }
    ensures does { IfOk result (λ n. IsNoticeEffect tables.old conn handle action pulse n) }
    ensures room { IfOk result (λ n. HasPulseRoom tables.new conn handle n) }
    ensures err { IfErr result (λ r. Fails (notice_checks tables.old conn handle action pulse) r) }
{
    let notified = noticed(tables, conn, handle, action, pulse)?;
    if notified.pulse.is_some() {
        tables.arm_ready(conn, handle)?;
    }
    Ok(notified)
}
