//! Steps of two nodes at the same time.
ghost use Rattle.std.specs.Prelude.{◌≡◌, IfOk, length};

use crate::meeting::{Meeting, MeetingDisk};
use gp_cli::serve;
use gp_edge::{CalmSink, CalmSource};
use std::alloc::Global;
use std::sync::Wait;
use std::test::Fail;
use std::thread::Threads;

const OFFERS: u32 = 4;

const FEW: &[u8] =
    b"nodes 3 3 2\noffer p0 put a 1\noffer p1 add b 2\noffer p2 add b 3\noffer p3 put c 4\n";

// The greatest configuration: 24 nodes in threads.
const MANY: &[u8] =
    b"nodes 7 5 4\noffer p0 put a 1\noffer p1 add b 2\noffer p2 add b 3\noffer p3 put c 4\n";

// A run that handles one node after another, or holds a lock round whole steps, even if it takes the
// lock after the gate, keeps their writes apart.
#[test]
fn two_steps_at_once(rt: HostRuntime) -> Result<(), Fail> {
    assert!(rt; meet(&rt, rt.alloc(), FEW)?);
    Ok(())
}

#[test]
fn two_steps_at_once_beside_all_nodes(rt: HostRuntime) -> Result<(), Fail> {
    assert!(rt; meet(&rt, rt.alloc(), MANY)?);
    Ok(())
}

// Whether the acceptors met, and the run ended well.
fn meet<W: Threads + Wait + Sync>(rt: &W, alloc: Global, script: &[u8]) -> Result<bool, Fail> {
    let meeting = Meeting::new(OFFERS);
    let status = status_at(rt, alloc, script, &meeting)?;
    Ok(status == 0 && meeting.has_been())
}

fn status_at<W: Threads + Wait + Sync>(
    rt: &W,
    alloc: Global,
    script: &[u8],
    meeting: &Meeting,
) -> Result<u8, Fail> {
    let words = [String::from_str(alloc, "run")?];
    let mut source = CalmSource::new(alloc, script)?;
    let mut sink = CalmSink::new(alloc)?;
    let disks = disks_at(alloc, meeting)?;
    let ran = serve(rt, alloc, &words, &mut source, &mut sink, disks, meeting);
    Ok(ran.status)
}

// Twelve empty disks, of which those of acceptors 0 and 1 meet.
fn disks_at<'a>(alloc: Global, meeting: &'a Meeting) -> Result<Vec<MeetingDisk<'a>>, Fail>
    ensures { IfOk result (λ disks. length disks.items ≡ 12) }
{
    let mut disks = Vec::new(alloc);
    for number in 0..12 {
        disks.push(MeetingDisk::new(alloc, number, meeting)?)?;
    }
    Ok(disks)
}
