//! The steps of a system, cube by cube.

ghost use Rattle.std.specs.Prelude.{◌≡◌, IfOk, All};
ghost use Rattle.pg_satisfies_check.specs.Mirrors.Steps.{IsCube};

use crate::cube::LatchCube;
use crate::propagation::users_of;
use crate::rows::{Cutter, rows_of};
use crate::system::{Bit, CircuitPart};
use std::alloc::{AllocError, Global};

/// A system, and what is known of its steps in some cubes: in each step in which the latches have the values of a cube, some row of the
/// cube is right. Cubes are numbered as they are added, from 0 on.
#[derive(Debug, Drop)]
pub struct CubeSteps {
    pub system: CircuitPart,
    pub cubes: Vec<LatchCube>,
    variables: usize,
    users: Vec<Vec<usize>>,
    ghost right: { All (IsCube system) cubes.items },
}

impl CubeSteps {
    /// Returns the steps of a system, with no cubes yet. The variables are below `variables`; what is known of others is lost. Fails only
    /// if an allocation fails.
    pub fn new(
        alloc: Global,
        system: CircuitPart,
        variables: usize,
    ) -> Result<CubeSteps, AllocError>
        ensures { IfOk result (λ steps. steps.system ≡ system) }
    {
        let users = users_of(alloc, variables, &system.gates)?;
        Ok(CubeSteps {
            system,
            cubes: Vec::new(alloc),
            variables,
            users,
        })
    }

    /// Adds the cube in which the latches have these values. Answers `false`, and adds nothing, if more than `fuel` cuts are asked for.
    /// Fails only if an allocation fails.
    pub fn add<C: Cutter>(
        &mut self,
        alloc: Global,
        bits: Vec<Bit>,
        cutter: &C,
        fuel: u32,
    ) -> Result<bool, AllocError>
        ensures { self.new.system ≡ self.old.system }
    {
        let rows = rows_of(
            alloc,
            &self.system,
            &self.users,
            self.variables,
            cutter,
            fuel,
            &bits,
        )?;
        let Some(rows) = rows else {
            return Ok(false);
        };
        self.cubes.push(LatchCube { bits, rows })?;
        Ok(true)
    }
}
