//! Cuts of a game among workers.

ghost use Rattle.std.specs.Prelude.{◌≡◌, ◌≤◌, ◌<◌, length, IfOk, IfSome, IfNone};
ghost use Rattle.pg_coord_partition.specs.Cuts.{worker_of, even_worker, IsEvenCut, NameWorkers};

use pg_arena::Vertex;
use std::alloc::{AllocError, Global};
use std::marker::Model;

/// Which worker each vertex belongs to. Workers are numbered from 1 on; 0 is nobody.
#[derive(Drop)]
pub struct Cut {
    workers: u32,
    numbers: Vec<u32>,
}

impl Model for Cut {
    ghost use Rattle.std.specs.Prelude.{◌≤◌, All};
    ghost use Rattle.pg_coord_partition.specs.Cuts.{CutValue};

    ghost Value = { CutValue };

    ghost view = { λ c. record { workers = c.workers; numbers = c.numbers.items } };

    ghost invariant = { λ c. All (λ n. n ≤ c.workers) c.numbers.items };
}

impl Cut {
    /// Cuts the vertices into runs of about equal length: vertex v belongs to worker `1 + v * workers / vertices`,
    /// rounded down. With 0 workers they belong to nobody. Fails only if memory runs out.
    pub fn even(alloc: Global, vertices: u32, workers: u32) -> Result<Cut, AllocError>
        ensures { IfOk result (IsEvenCut vertices workers) }
    {
        let mut numbers = Vec::with_capacity(alloc, vertices as usize)?;
        for v in 0..vertices {
            numbers.push(even_worker(vertices, workers, v))?;
        }
        Ok(Cut { workers, numbers })
    }

    /// Makes the cut that gives each vertex the worker with the number in the list. Returns None if a number isn't between
    /// 1 and `workers`. Fails only if memory runs out.
    pub fn from_list(alloc: Global, workers: u32, list: &[u32]) -> Result<Option<Cut>, AllocError>
        ensures cut { IfOk result (λ o. IfSome o (λ c. (c.workers ≡ workers) × (c.numbers ≡ list.now)
            × NameWorkers workers list.now)) }
        ensures none { IfOk result (λ o. IfNone o (¬ (NameWorkers workers list.now))) }
    {
        if !list.iter().all(|number| (1..=workers).contains(number)) {
            return Ok(None);
        }
        let mut numbers = Vec::new(alloc);
        numbers.extend_from_slice(list)?;
        Ok(Some(Cut { workers, numbers }))
    }

    /// Returns the number of vertices.
    pub fn vertices(&self) -> usize
        ensures { result ≡ length self.now.numbers }
    {
        self.numbers.len()
    }

    /// Returns the number of workers.
    pub fn workers(&self) -> u32
        ensures { result ≡ self.now.workers }
    {
        self.workers
    }

    /// Returns the number of the worker that a vertex belongs to, from 1 on, or 0 if there are 0 workers. The vertex must
    /// be below the number of vertices.
    pub fn worker_of(&self, v: Vertex) -> u32
        requires { v < length self.now.numbers }
        ensures value { result ≡ worker_of self.now v }
        ensures within { result ≤ self.now.workers }
    {
        self.numbers[v.0 as usize]
    }
}

/// Returns the worker of the vertex v in an even cut, or 0 if there are no workers.
fn even_worker(vertices: u32, workers: u32, v: u32) -> u32
    requires { v < vertices }
    ensures value { result ≡ even_worker vertices workers v }
    ensures within { result ≤ workers }
{
    if workers == 0 {
        return 0;
    }
    let before = u64::from(v) * u64::from(workers) / u64::from(vertices);
    1 + before as u32
}
