//! Circuits without a cycle.

ghost use Rattle.std.specs.Prelude.{◌≡◌, IfOk, IfErr};
ghost use Rattle.pg_aiger_netlist.specs.Netlists.{IsAcyclic, IsFaultOf};
ghost use Rattle.pg_aiger_netlist.specs.Mirrors.Views.{circuit, IsOrder};

use crate::fault::NetlistFault;
use crate::marks::{check_uses, definitions_of, marked, sources_of, uses_of};
use crate::order::order_of;
use pg_aiger::{Gate, Latch};
use std::alloc::Global;
use std::marker::Model;

/// A circuit without a cycle. A literal is twice its variable, plus one if it is negated; variable 0 is the constant false.
#[derive(Debug, Drop)]
pub struct Netlist {
    pub(crate) greatest: u32,
    pub(crate) inputs: Vec<u32>,
    pub(crate) latches: Vec<Latch>,
    pub(crate) outputs: Vec<u32>,
    pub(crate) gates: Vec<Gate>,
    /// The gates, each after the gates whose variables it uses.
    pub(crate) ordered: Vec<Gate>,
}

impl Model for Netlist {
    ghost use Rattle.pg_aiger.specs.Circuits.{Circuit};
    ghost use Rattle.pg_aiger_netlist.specs.Mirrors.Views.{circuit, IsKept};

    ghost Value = { Circuit };

    ghost view = { λ n. circuit n.greatest n.inputs.items n.latches.items n.outputs.items n.gates.items };

    ghost invariant = { λ n. IsKept (circuit n.greatest n.inputs.items n.latches.items n.outputs.items n.gates.items) n.ordered.items };
}

impl Netlist {
    /// Makes a circuit of these lists, if it has no cycle. No variable is above `greatest`. Inputs and outputs keep their order; the
    /// gates may come in any order.
    ///
    /// It fails at the first literal that can define no variable (`NotAVariable`) or defines one for the second time (`DefinedTwice`);
    /// then if a variable is used and not defined (`Undefined`); then if gates depend on one another (`Cycle`); or if memory runs out
    /// (`OutOfMemory`).
    pub fn new(
        alloc: Global,
        greatest: u32,
        inputs: Vec<u32>,
        latches: Vec<Latch>,
        outputs: Vec<u32>,
        gates: Vec<Gate>,
    ) -> Result<Netlist, NetlistFault>
        ensures lists { IfOk result (λ n. n ≡ circuit greatest inputs.items latches.items outputs.items gates.items) }
        ensures acyclic { IfOk result IsAcyclic }
        ensures fault { IfErr result (IsFaultOf (circuit greatest inputs.items latches.items outputs.items gates.items)) }
    {
        let sources = sources_of(alloc, &inputs, &latches)?;
        let definitions = definitions_of(alloc, &sources, &gates)?;
        let defined = marked(alloc, greatest, &definitions)?;
        let uses = uses_of(alloc, &gates, &latches, &outputs)?;
        check_uses(&defined, &uses)?;
        let mut known = marked(alloc, greatest, &sources)?;
        let ordered = order_of(alloc, &mut known, &gates)?;
        Ok(Netlist {
            greatest,
            inputs,
            latches,
            outputs,
            gates,
            ordered,
        })
    }

    /// Returns the greatest variable that a literal may have.
    pub fn greatest(&self) -> u32
        ensures { result ≡ self.now.greatest }
    {
        self.greatest
    }

    /// Returns the literals of the inputs, in the circuit's order.
    pub fn input_literals(&self) -> &[u32]
        ensures { result.now ≡ self.now.inputs }
    {
        &self.inputs
    }

    /// Returns the latches, in the circuit's order.
    pub fn latch_lines(&self) -> &[Latch]
        ensures { result.now ≡ self.now.latches }
    {
        &self.latches
    }

    /// Returns the gates, each after the gates whose variables it uses.
    pub fn ordered_gates(&self) -> &[Gate]
        ensures { IsOrder self.now result.now }
    {
        &self.ordered
    }
}
