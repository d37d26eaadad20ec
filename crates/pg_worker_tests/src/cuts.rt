//! Cuts. The rows of `replay` show more of them.

use pg_arena::Vertex;
use pg_worker::Cut;
use std::test::Fail;

/// Whether the vertex exists and belongs to this worker.
fn gives(cut: &Cut, v: u32, worker: u32) -> bool {
    (v as usize) < cut.vertices() && cut.worker_of(Vertex(v)) == worker
}

#[test]
fn cuts_give_each_vertex_to_a_worker(rt: HostRuntime) -> Result<(), Fail> {
    let even = Cut::even(rt.alloc(), 5, 2)?;
    assert!(rt; even.vertices() == 5 && even.workers() == 2);
    assert!(rt; gives(&even, 2, 1) && gives(&even, 3, 2));
    let listed = Cut::from_list(rt.alloc(), 2, &[2, 1, 1])?.ok_or("each is a worker")?;
    assert!(rt; listed.vertices() == 3 && listed.workers() == 2);
    assert!(rt; gives(&listed, 0, 2) && gives(&listed, 2, 1));
    Ok(())
}
