//! Netlists of circuits whose variables are in order.

ghost use Rattle.std.specs.Prelude.{◌≡◌, ◌+◌, ◌≤◌, length, IfOk};
ghost use Rattle.pg_aiger.specs.Circuits.{literals_from, latches_from};

use crate::fault::NetlistFault;
use crate::netlist::Netlist;
use pg_aiger::{Circuit, Latch};
use std::alloc::{AllocError, Global};

/// Returns the literals of `count` consecutive variables, from `first` on.
fn literals_of(alloc: Global, first: u32, count: u32) -> Result<Vec<u32>, AllocError>
    requires { first + count ≤ 1073741824 }
    ensures { IfOk result (λ list. list.items ≡ literals_from first count) }
{
    let mut list = Vec::new(alloc);
    for i in 0..count {
        list.push(2 * (first + i))?;
    }
    Ok(list)
}

/// Returns latches of consecutive variables, from `first` on, with the next literal of each.
fn latches_of(alloc: Global, first: u32, nexts: &[u32]) -> Result<Vec<Latch>, AllocError>
    requires { first + length nexts.now ≤ 1073741824 }
    ensures { IfOk result (λ list. list.items ≡ latches_from first nexts.now) }
{
    let mut list = Vec::new(alloc);
    for (place, next) in nexts.iter().enumerate() {
        list.push(Latch {
            literal: 2 * (first + place as u32),
            next: *next,
        })?;
    }
    Ok(list)
}

impl Netlist {
    /// Returns the netlist of a circuit whose variables are in order: the same circuit.
    pub fn of(alloc: Global, circuit: &Circuit) -> Result<Netlist, NetlistFault>
        ensures { IfOk result (λ netlist. netlist ≡ circuit.now) }
    {
        let (inputs, nexts, outputs, gates) = circuit.parts();
        let first = 1 + inputs;
        let greatest = inputs + nexts.len() as u32 + gates.len() as u32;
        let literals = literals_of(alloc, 1, inputs)?;
        let latches = latches_of(alloc, first, nexts)?;
        let outputs = Vec::from_slice(alloc, outputs)?;
        let gates = Vec::from_slice(alloc, gates)?;
        Netlist::new(alloc, greatest, literals, latches, outputs, gates)
    }
}
