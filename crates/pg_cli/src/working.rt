//! Worker programs.

ghost use Rattle.std.specs.Prelude.{◌≡◌, IfErr, OnOk};
ghost use Rattle.pg_worker.specs.declared.fault.WorkerFault.{WorkerFault};
ghost use Rattle.pg_worker.specs.declared.served.Served.{Served};
ghost use Rattle.pg_worker.specs.Serving.{Serves};
ghost use Rattle.pg_cli_command.specs.Faults.{worker_fault};
ghost use Rattle.pg_cli.specs.Serving.{EndsServing, RefusesWork};

use crate::attended::Attended;
use pg_cli_command::CliFault;
use pg_worker::serve;
use std::alloc::Global;
use std::fs::Files;
use std::io::{self, Read, Write};
use std::net::{Ipv4Addr, Net, OpenStream, TcpStream};
use std::time::Clock;

/// Connects to a port of 127.0.0.1, and returns the stream to read from and the stream to write to. Written bytes are sent at once.
fn connect<R: Net>(rt: &R, port: u16) -> io::Result<(R::Stream, R::Stream)> {
    let output = TcpStream::connect(rt, (Ipv4Addr::LOCALHOST, port))?;
    output.set_nodelay(true)?;
    Ok((output.try_clone()?, output))
}

/// Serves as a worker between a reader and a writer. If serving ends with a fault, returns it as a fault of the program.
fn serve_between<R: Read, W: Write>(
    alloc: Global,
    input: &mut R,
    output: &mut W,
) -> Result<(), CliFault>
    ensures served { OnOk result ((served : Served) × Serves served (R.remaining input.old) (R.remaining input.new)
        (W.contents output.old) (W.contents output.new)) }
    ensures fault { IfErr result (λ fault. (ended : WorkerFault) × (fault ≡ worker_fault ended)
        × EndsServing ended (R.remaining input.old) (W.contents output.old) (W.contents output.new)) }
{
    serve(alloc, input, output)?;
    Ok(())
}

/// Connects to a port of 127.0.0.1, and serves as a worker for the program that listens there, until Halt comes or the input ends. It also
/// ends when nobody holds the other end of the connection any more, which it checks once a second while there are frames to read. It makes
/// one write for each reply.
///
/// Fails with `Connect` if nobody answers at the port, with `Worker` and the fault that ended the serving, and with `OutOfMemory`.
pub fn work<R: Net + Files + Clock>(rt: &R, alloc: Global, port: u16) -> Result<(), CliFault>
    ensures { IfErr result (RefusesWork port) }
{
    let Ok((input, mut output)) = connect(rt, port) else {
        return Err(CliFault::Connect(port));
    };
    let mut input = Attended::new(rt, alloc, input, port).map_err(|_| CliFault::OutOfMemory)?;
    serve_between(alloc, &mut input, &mut output)
}
