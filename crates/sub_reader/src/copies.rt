//! Copies of records, and whether two hold the same.
ghost use Rattle.std.specs.Prelude.{◌≡◌, ◌<◌, ◌^◌, ◌↔◌, IsTrue, IfOk, IfErr};
ghost use Rattle.pps_types.specs.declared.refusal.Refusal.TheVariants.{OutOfMemory};
ghost use Rattle.change_chain.specs.Span.{end_of};

use change_chain::Chain;
use pps_types::Refusal;
use server_queue::Entry;
use std::alloc::Global;

/// Shares of the same records at the same positions, without room.
pub(crate) fn copy_records(alloc: Global, records: &Chain<Entry>) -> Result<Chain<Entry>, Refusal>
    requires { end_of records.now < 2 ^ 64 }
    ensures ok { IfOk result (λ copy. copy.items ≡ records.now.items) }
    ensures start { IfOk result (λ copy. copy.start ≡ records.now.start) }
    ensures err { IfErr result (λ r. r ≡ OutOfMemory) }
{
    let start = records.start();
    let end = records.end();
    let mut copy = Chain::new(alloc, start);
    copy.reserve((end - start) as usize)?;
    for position in start..end {
        copy.push_reserved(records.at(position).share()?);
    }
    Ok(copy)
}

/// Whether both hold the same records, wherever they begin. It takes no memory.
pub(crate) fn same_records(one: &Chain<Entry>, other: &Chain<Entry>) -> bool
    requires first { end_of one.now < 2 ^ 64 }
    requires second { end_of other.now < 2 ^ 64 }
    ensures { IsTrue result ↔ (one.now.items ≡ other.now.items) }
{
    let count = one.end() - one.start();
    if other.end() - other.start() != count {
        return false;
    }
    for i in 0..count {
        if !one.at(one.start() + i).same(other.at(other.start() + i)) {
            return false;
        }
    }
    true
}
