//! Links to programs that are no workers: one that ends before it connects, and one that doesn't exist.

use pg_coord::{Link, LinkFault, Reach, SocketLink};
use std::alloc::Global;
use std::test::Fail;

/// Whether each call fails. There is no program before a frame is sent; the send starts one exactly if the file exists, and
/// after it was killed the link still has it.
fn fails_each_call<R: Reach>(alloc: Global, link: &mut SocketLink<R>, is_there: bool) -> bool {
    let mut frame = Vec::new(alloc);
    let is_idle = link.receive(&mut frame) == Err(LinkFault::Failed) && !link.has_program();
    let fails_to_send = link.send(&[0, 0, 0, 1, 6]) == Err(LinkFault::Failed);
    let is_started = link.has_program() == is_there;
    link.kill();
    is_idle
        && fails_to_send
        && is_started
        && link.has_program() == is_there
        && link.receive(&mut frame) == Err(LinkFault::Failed)
        && link.restart() == Err(LinkFault::Failed)
}

#[test]
fn a_program_that_never_connects_fails_each_call(rt: HostRuntime) -> Result<(), Fail> {
    for path in ["/bin/true", "/nonexistent/parsolve"] {
        let Ok(mut link) = SocketLink::listen(rt, rt.alloc(), path) else {
            return Err("no port can be listened at".into());
        };
        let is_there = path == "/bin/true";
        assert!(rt; fails_each_call(rt.alloc(), &mut link, is_there), "{path}");
        link.close();
    }
    Ok(())
}

#[test]
fn a_link_whose_time_is_over_starts_nothing(rt: HostRuntime) -> Result<(), Fail> {
    let Ok(mut link) = SocketLink::listen(rt, rt.alloc(), "/bin/true") else {
        return Err("no port can be listened at".into());
    };
    link.limit(0);
    assert!(rt; fails_each_call(rt.alloc(), &mut link, false));
    link.close();
    Ok(())
}

#[test]
fn a_program_that_was_started_before_a_send_is_the_one_that_is_sent_to(
    rt: HostRuntime,
) -> Result<(), Fail> {
    let Ok(mut link) = SocketLink::listen(rt, rt.alloc(), "/bin/true") else {
        return Err("no port can be listened at".into());
    };
    link.limit(60);
    link.prepare();
    link.prepare();
    assert!(rt; fails_each_call(rt.alloc(), &mut link, true));
    link.close();
    Ok(())
}
