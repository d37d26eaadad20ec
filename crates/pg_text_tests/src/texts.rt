//! Reads texts of a game and of a solution, and prints them to writers that take them and to others that fail.

use pg_arena::{Player, Vertex};
use pg_text::{TextFault, read_game, read_solution, write_game, write_solution};
use std::io;
use std::test::Fail;

/// A game in an unusual spelling, and as it is printed.
const GAME: &[u8] = b"4000000000 2 0 7;\n7 1 1 4000000000,7,7\"x y\";";

const GAME_PRINTED: &[u8] = b"parity 4000000000;\n7 1 1 7,4000000000 \"x y\";\n4000000000 2 0 7;\n";

/// The solution of the game in an unusual spelling, and as it is printed: Odd keeps the play at 7.
const SOLUTION: &[u8] = b"paritysol 9;4000000000 1;007 1 7;";

const SOLUTION_PRINTED: &[u8] = b"paritysol 4000000000;\n7 1 7;\n4000000000 1;\n";

/// A writer that takes `room` bytes and then fails.
#[derive(Drop)]
struct FullText {
    room: usize,
}

impl io::Write for FullText {
    fn write(&mut self, buf: &[u8]) -> io::Result<usize> {
        if self.room < buf.len() {
            return Err(io::Error::from(io::ErrorKind::WriteZero));
        }
        self.room -= buf.len();
        Ok(buf.len())
    }

    fn flush(&mut self) -> io::Result<()> {
        Ok(())
    }
}

#[test]
fn a_game_is_read_and_printed_unless_the_writer_fails(rt: HostRuntime) -> Result<(), Fail> {
    let game = read_game(rt.alloc(), GAME)?;
    let mut out = Vec::new(rt.alloc());
    write_game(&game, &mut out)?;
    assert_eq!(rt; out.as_slice(), GAME_PRINTED);
    for room in 0..GAME_PRINTED.len() {
        assert_eq!(rt;
            write_game(&game, &mut FullText { room }),
            Err(TextFault::Write)
        );
    }
    Ok(())
}

#[test]
fn a_solution_is_read_and_printed_unless_the_writer_fails(rt: HostRuntime) -> Result<(), Fail> {
    let game = read_game(rt.alloc(), GAME)?;
    let solution = read_solution(rt.alloc(), &game, SOLUTION)?;
    assert!(rt; solution.len() == 2);
    assert!(rt; solution.winner(Vertex(0)) == Player::Odd);
    assert!(rt; solution.choice(Vertex(0)) == Some(Vertex(0)));
    let mut out = Vec::new(rt.alloc());
    write_solution(&game, &solution, &mut out)?;
    assert_eq!(rt; out.as_slice(), SOLUTION_PRINTED);
    for room in 0..SOLUTION_PRINTED.len() {
        let answer = write_solution(&game, &solution, &mut FullText { room });
        assert_eq!(rt; answer, Err(TextFault::Write));
    }
    Ok(())
}
