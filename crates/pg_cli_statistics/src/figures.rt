//! The figures of a command's work that `--stats` asks for: counts and seconds. They are counted alongside the answer, which doesn't depend
//! on them.

ghost use Rattle.std.specs.Prelude.{◌≡◌};

use crate::kept::parted;
use pg_aiger_netlist::Netlist;
use pg_aiger_reader::{Parts, read_circuit, tie};
use pg_arena::{Game, Vertex};
use pg_cli_words::Command;
use pg_hoa::{Automaton, read_automaton};
use pg_ltl::{FormulaNode, Infix, Prefix, read_formula};
use pg_means_texts::{ProductSizes, product_sizes};
use pg_synth::game_of;
use pg_text::read_game;
use pg_verify::product_if_tied;
use pg_verify_environment::counterpart;
use std::alloc::{AllocError, Global};
use std::io::{self, Write};
use std::time::{Clock, Duration};

/// The number of possible priorities: one more than the greatest.
const PRIORITIES: usize = 65_536;

/// The size of a game.
#[derive(Clone, Copy)]
struct Size {
    vertices: usize,
    edges: usize,
    priorities: usize,
}

/// The number of vertices that each player wins.
#[derive(Clone, Copy)]
struct Wins {
    even: usize,
    odd: usize,
}

/// The numbers of latches and gates of a circuit.
#[derive(Clone, Copy)]
struct CircuitSize {
    latches: usize,
    gates: usize,
}

/// The names of the propositions that one side sets, as a line lists them, and as an array of JSON.
#[derive(Drop)]
struct SideNames {
    line: Vec<u8>,
    array: Vec<u8>,
}

/// The names of the propositions of each side.
#[derive(Drop)]
struct PropositionNames {
    inputs: SideNames,
    outputs: SideNames,
}

/// A stopwatch for pieces of work, one after another.
#[derive(Clone, Copy)]
pub struct Stopwatch {
    last: Duration,
}

impl Stopwatch {
    /// Starts the watch. The first piece of work begins.
    pub fn start<R: Clock>(rt: &R) -> Stopwatch {
        Stopwatch {
            last: rt.monotonic().unwrap_or(Duration::ZERO),
        }
    }

    /// Ends a piece of work, and returns how long it took. The next piece begins.
    pub fn lap<R: Clock>(&mut self, rt: &R) -> Duration {
        let now = rt.monotonic().unwrap_or(self.last);
        let taken = now.saturating_sub(self.last);
        self.last = now;
        taken
    }
}

/// The figures that a command has.
#[derive(Drop)]
pub struct Figures {
    /// The formula that an automaton is made from, kept to measure its products.
    formula: Option<Vec<u8>>,
    /// The number of temporal operators of a formula.
    operators: Option<usize>,
    states: Option<u32>,
    /// The sizes of the products of an automaton and a formula.
    products: Option<ProductSizes>,
    /// The number of states of the product of the automaton and a circuit.
    product: Option<u32>,
    sides: Option<PropositionNames>,
    size: Option<Size>,
    wins: Option<Wins>,
    parts: Option<CircuitSize>,
    read: Duration,
    answered: Duration,
    written: Option<Duration>,
    watch: Stopwatch,
}

/// Returns the size of a game.
fn size_of(alloc: Global, game: &Game) -> Result<Size, AllocError> {
    let mut seen = vec![in alloc; false; PRIORITIES]?;
    let mut size = Size {
        vertices: game.len(),
        edges: 0,
        priorities: 0,
    };
    for number in 0..game.len() {
        let v = Vertex(number as u32);
        size.edges = size.edges.saturating_add(game.successors(v).len());
        if let Some(known) = seen.get_mut(game.priority(v) as usize) {
            if !*known {
                *known = true;
                size.priorities = size.priorities.saturating_add(1);
            }
        }
    }
    Ok(size)
}

/// Returns the size of the game that a text spells. Returns None if it spells none, or if memory runs out.
fn size_in(alloc: Global, text: &[u8]) -> Option<Size> {
    let game = read_game(alloc, text).ok()?;
    size_of(alloc, &game).ok()
}

/// Returns the two texts in one input of `check`, `means` or `verify`: those before and after the line `--`. For other commands, and if
/// there is no such line, returns the input and an empty text.
fn both_texts(command: Command, text: &[u8]) -> (&[u8], &[u8]) {
    if !matches!(
        command,
        Command::Check | Command::Means | Command::Verify { .. } | Command::VerifyFormula { .. }
    ) {
        return (text, &[]);
    }
    parted(text).unwrap_or((text, &[]))
}

/// Returns how many vertices each player wins by a printed solution.
fn wins_in(solution: &[u8]) -> Wins {
    let mut wins = Wins { even: 0, odd: 0 };
    for line in solution.split(|byte| *byte == b'\n').skip(1) {
        match line.split(|byte| *byte == b' ').nth(1) {
            Some([b'0', ..]) => wins.even = wins.even.saturating_add(1),
            Some([b'1', ..]) => wins.odd = wins.odd.saturating_add(1),
            _ => (),
        }
    }
    wins
}

/// Returns the number in a field of a line.
fn number_in(field: Option<&[u8]>) -> Option<usize> {
    str::from_utf8(field?).ok()?.parse().ok()
}

/// Returns the numbers of latches and gates of the circuit in a text. They are in the first line that begins with `aag ` or `aig `, such as
/// `aag M I L O A`.
fn parts_in(text: &[u8]) -> Option<CircuitSize> {
    let line = text.split(|byte| *byte == b'\n').find(|line| line.starts_with(b"aag ")
        || line.starts_with(b"aig "))?;
    let latches = number_in(line.split(|byte| *byte == b' ').nth(3))?;
    let gates = number_in(line.split(|byte| *byte == b' ').nth(5))?;
    Some(CircuitSize { latches, gates })
}

/// Returns the number of states of the automaton in a text, by its header.
fn states_in(text: &[u8]) -> Option<u32> {
    let line = text
        .split(|byte| *byte == b'\n')
        .find(|line| line.starts_with(b"States: "))?;
    u32::try_from(number_in(line.split(|byte| *byte == b' ').nth(1))?).ok()
}

/// Whether a part of a formula is a temporal operator.
fn is_temporal(node: &FormulaNode) -> bool {
    matches!(
        node,
        FormulaNode::One(Prefix::Next | Prefix::Finally | Prefix::Globally, _)
            | FormulaNode::Two(
                Infix::Until | Infix::Release | Infix::Weak | Infix::Strong,
                _,
                _
            )
    )
}

/// Returns the number of temporal operators of the formula in a text.
fn operators_in(alloc: Global, text: &[u8]) -> Option<usize> {
    let (_names, formula) = read_formula(alloc, text).ok()?;
    Some(
        formula
            .nodes
            .iter()
            .filter(|node| is_temporal(*node))
            .count(),
    )
}

/// Returns the number of measures that are top in the text of measures, or in a part of it.
fn tops_in(measures: &[u8]) -> usize {
    measures.iter().filter(|byte| **byte == b'T').count()
}

/// Appends a name, which has no control characters, as a JSON string. If the name isn't UTF-8, each byte over 127 becomes the replacement
/// character.
fn push_string(array: &mut Vec<u8>, name: &[u8]) -> Result<(), AllocError> {
    let is_text = str::from_utf8(name).is_ok();
    array.push(b'"')?;
    for byte in name {
        match *byte {
            b'"' | b'\\' => array.extend_from_slice(&[b'\\', *byte])?,
            128..=255 if !is_text => array.extend_from_slice(b"\\ufffd")?,
            _ => array.push(*byte)?,
        }
    }
    array.push(b'"')?;
    Ok(())
}

/// Returns the names of the propositions that one side sets.
fn side_of(
    alloc: Global,
    automaton: &Automaton,
    is_controller: bool,
) -> Result<SideNames, AllocError> {
    let mut line = Vec::new(alloc);
    let mut array = Vec::from_slice(alloc, b"[")?;
    for a in 0..automaton.propositions() {
        if automaton.controllable(a) == is_controller {
            let name = automaton.proposition(a);
            let between: &[u8] = if line.is_empty() { b"" } else { b", " };
            line.extend_from_slice(between)?;
            line.push(b'"')?;
            line.extend_from_slice(name)?;
            line.push(b'"')?;
            array.extend_from_slice(between)?;
            push_string(&mut array, name)?;
        }
    }
    if line.is_empty() {
        line.extend_from_slice(b"none")?;
    }
    array.push(b']')?;
    Ok(SideNames { line, array })
}

/// Returns the names of the propositions of both sides.
fn sides_of(alloc: Global, automaton: &Automaton) -> Result<PropositionNames, AllocError> {
    Ok(PropositionNames {
        inputs: side_of(alloc, automaton, false)?,
        outputs: side_of(alloc, automaton, true)?,
    })
}

/// Returns the size of the game of an automaton.
fn size_of_game(alloc: Global, automaton: &Automaton) -> Option<Size> {
    let made = game_of(alloc, automaton).ok()?;
    size_of(alloc, &made.game).ok()
}

/// The figures of a command's input: a formula, an automaton or a game.
#[derive(Drop)]
struct Counted {
    formula: Option<Vec<u8>>,
    operators: Option<usize>,
    states: Option<u32>,
    products: Option<ProductSizes>,
    product: Option<u32>,
    sides: Option<PropositionNames>,
    size: Option<Size>,
}

/// Returns the product of an automaton and the circuit in a text, if there is one.
fn product_in(
    alloc: Global,
    automaton: &Automaton,
    circuit: &[u8],
    by_place: bool,
) -> Option<Automaton> {
    let Ok(parts) = read_circuit(alloc, circuit) else {
        return None;
    };
    let Ok(parts) = tie(alloc, automaton, parts, by_place) else {
        return None;
    };
    let Parts {
        greatest,
        inputs,
        latches,
        outputs,
        gates,
        symbols,
    } = parts;
    drop(symbols);
    let Ok(netlist) = Netlist::new(alloc, greatest, inputs, latches, outputs, gates) else {
        return None;
    };
    product_if_tied(alloc, automaton, &netlist).ok()?
}

/// Returns the product that a command makes of an automaton and the circuit in a text, if it makes one.
fn product_of(
    alloc: Global,
    command: Command,
    automaton: &Automaton,
    circuit: &[u8],
) -> Option<Automaton> {
    match command {
        Command::Verify {
            by_place,
            environment: true,
            ..
        } => {
            let twin = counterpart(alloc, automaton).ok()?;
            product_in(alloc, &twin, circuit, by_place)
        }
        Command::Verify { by_place, .. } => product_in(alloc, automaton, circuit, by_place),
        _ => None,
    }
}

impl Counted {
    /// Counts what is in a command's input, of one text or two. For `verify`, the game is the game of the product.
    fn of(alloc: Global, command: Command, first: &[u8], second: &[u8]) -> Counted {
        let mut counted = Counted {
            formula: None,
            operators: None,
            states: None,
            products: None,
            product: None,
            sides: None,
            size: None,
        };
        match command {
            Command::Automaton => {
                counted.formula = Vec::from_slice(alloc, first).ok();
                counted.operators = operators_in(alloc, first);
            }
            Command::VerifyFormula { .. } => counted.operators = operators_in(alloc, first),
            Command::Means => {
                counted.operators = operators_in(alloc, second);
                counted.states = states_in(first);
                counted.products = product_sizes(alloc, first, second).ok();
            }
            Command::Game
            | Command::Synth { .. }
            | Command::SynthSmall { .. }
            | Command::SynthCounter { .. }
            | Command::Verify { .. } => counted.add_automaton(alloc, command, first, second),
            _ => counted.size = size_in(alloc, first),
        }
        counted
    }

    /// Counts what is in the automaton of the first text.
    fn add_automaton(&mut self, alloc: Global, command: Command, first: &[u8], second: &[u8]) {
        let Ok(automaton) = read_automaton(alloc, first) else {
            return;
        };
        self.states = Some(automaton.states());
        self.sides = sides_of(alloc, &automaton).ok();
        match product_of(alloc, command, &automaton, second) {
            Some(product) => {
                self.product = Some(product.states());
                self.size = size_of_game(alloc, &product);
            }
            None if matches!(command, Command::Verify { .. }) => (),
            None => self.size = size_of_game(alloc, &automaton),
        }
    }
}

impl Figures {
    /// Counts what is in the one text of a command. The watch was started when reading began, and that piece of work ends here.
    pub fn of<R: Clock + AllocGlobal>(
        rt: &R,
        command: Command,
        text: &[u8],
        watch: Stopwatch,
    ) -> Figures {
        let (first, second) = both_texts(command, text);
        Figures::of_both(rt, command, first, second, watch)
    }

    /// Counts what is in the two texts of a command. The watch was started when reading began, and that piece of work ends here.
    pub fn of_both<R: Clock + AllocGlobal>(
        rt: &R,
        command: Command,
        first: &[u8],
        second: &[u8],
        mut watch: Stopwatch,
    ) -> Figures {
        let read = watch.lap(rt);
        let Counted {
            formula,
            operators,
            states,
            products,
            product,
            sides,
            size,
        } = Counted::of(rt.alloc(), command, first, second);
        let parts = match command {
            Command::Verify { .. } | Command::VerifyFormula { .. } => parts_in(second),
            _ => None,
        };
        watch.lap(rt);
        Figures {
            formula,
            operators,
            states,
            products,
            product,
            sides,
            size,
            wins: None,
            parts,
            read,
            answered: Duration::ZERO,
            written: None,
            watch,
        }
    }

    /// Counts what is in the answer, which is made but not written yet. The piece of work that makes it ends here.
    pub fn add_answer<R: Clock + AllocGlobal>(&mut self, rt: &R, command: Command, answer: &[u8]) {
        self.answered = self.watch.lap(rt);
        match command {
            Command::Solve { .. } | Command::SolveAny { .. } => self.wins = Some(wins_in(answer)),
            Command::Synth { .. } | Command::SynthSmall { .. } | Command::SynthCounter { .. } => {
                self.parts = parts_in(answer);
            }
            Command::Automaton => {
                self.states = states_in(answer);
                self.products = match &self.formula {
                    Some(formula) => product_sizes(rt.alloc(), answer, formula).ok(),
                    None => None,
                };
            }
            Command::Measure { .. } => self.set_tops(tops_in(answer)),
            _ => (),
        }
        self.watch.lap(rt);
    }

    /// Ends the piece of work that writes the answer.
    pub fn end_writing<R: Clock>(&mut self, rt: &R) {
        self.written = Some(self.watch.lap(rt));
    }

    /// Ends the piece of work that makes the answer. The measures were written as they were made, and `tops` of them are top.
    pub fn end_measures<R: Clock>(&mut self, rt: &R, tops: usize) {
        self.answered = self.watch.lap(rt);
        self.set_tops(tops);
    }

    fn set_tops(&mut self, tops: usize) {
        if let Some(size) = self.size {
            self.wins = Some(Wins {
                even: size.vertices.saturating_sub(tops),
                odd: tops,
            });
        }
    }

    /// Prints the figures on one line, and the names of the propositions, if they are known, on another.
    pub fn tell<E: Write>(self, errors: &mut E) {
        let _ = self.write(errors);
    }

    /// Prints the figures as one JSON object on a line.
    pub fn tell_json<E: Write>(self, errors: &mut E) {
        let _ = self.write_json(errors);
    }

    /// Returns the counts with their names.
    fn counts(&self) -> [(&'static str, Option<usize>); 14] {
        let states = self.states.map(|states| states as usize);
        let (vertices, edges, priorities) = match self.size {
            Some(size) => (Some(size.vertices), Some(size.edges), Some(size.priorities)),
            None => (None, None, None),
        };
        let (even, odd) = match self.wins {
            Some(wins) => (Some(wins.even), Some(wins.odd)),
            None => (None, None),
        };
        let negation = self.products.map(|products| products.negation);
        let formula = self.products.map(|products| products.formula);
        let (latches, gates) = match self.parts {
            Some(parts) => (Some(parts.latches), Some(parts.gates)),
            None => (None, None),
        };
        [
            ("temporal operators", self.operators),
            ("states", states),
            ("nodes beside the negation", negation.map(|it| it.nodes)),
            ("edges beside the negation", negation.map(|it| it.edges)),
            ("nodes beside the formula", formula.map(|it| it.nodes)),
            ("edges beside the formula", formula.map(|it| it.edges)),
            (
                "states of the product",
                self.product.map(|states| states as usize),
            ),
            ("vertices", vertices),
            ("edges", edges),
            ("priorities", priorities),
            ("player 0 wins", even),
            ("player 1 wins", odd),
            ("latches", latches),
            ("gates", gates),
        ]
    }

    /// Returns how long each piece of work took, with its name.
    fn pieces(&self) -> [(&'static str, Option<Duration>); 3] {
        [
            ("read", Some(self.read)),
            ("answered", Some(self.answered)),
            ("written", self.written),
        ]
    }

    fn write<E: Write>(&self, errors: &mut E) -> io::Result<()> {
        write!(errors, "parsolve: stats:")?;
        for (name, count) in self.counts() {
            if let Some(count) = count {
                write!(errors, " {name} {count},")?;
            }
        }
        let mut before = "";
        for (name, taken) in self.pieces() {
            if let Some(taken) = taken {
                write!(errors, "{before} {name} ")?;
                write_seconds(errors, taken)?;
                before = " s,";
            }
        }
        writeln!(errors, " s")?;
        match &self.sides {
            Some(sides) => sides.write(errors),
            None => Ok(()),
        }
    }

    fn write_json<E: Write>(&self, errors: &mut E) -> io::Result<()> {
        let mut before = "{";
        for (name, count) in self.counts() {
            if let Some(count) = count {
                write!(errors, "{before}\"{name}\": {count}")?;
                before = ", ";
            }
        }
        for (name, taken) in self.pieces() {
            if let Some(taken) = taken {
                write!(errors, "{before}\"{name}\": ")?;
                write_seconds(errors, taken)?;
                before = ", ";
            }
        }
        if let Some(sides) = &self.sides {
            sides.write_json(errors)?;
        }
        errors.write_all(b"}\n")
    }
}

impl PropositionNames {
    fn write<E: Write>(&self, errors: &mut E) -> io::Result<()> {
        errors.write_all(b"parsolve: stats: inputs ")?;
        errors.write_all(self.inputs.line.as_slice())?;
        errors.write_all(b"; outputs ")?;
        errors.write_all(self.outputs.line.as_slice())?;
        writeln!(errors)
    }

    /// Writes the names as the last members of an object.
    fn write_json<E: Write>(&self, errors: &mut E) -> io::Result<()> {
        errors.write_all(b", \"inputs\": ")?;
        errors.write_all(self.inputs.array.as_slice())?;
        errors.write_all(b", \"outputs\": ")?;
        errors.write_all(self.outputs.array.as_slice())
    }
}

/// Writes the seconds that a piece of work took, with three decimals.
fn write_seconds<E: Write>(errors: &mut E, taken: Duration) -> io::Result<()> {
    let (seconds, thousandths) = (taken.as_secs(), taken.subsec_millis());
    write!(errors, "{seconds}.{thousandths:03}")
}

/// A writer that passes on what is written through it. If `tops` is set, it counts the bytes `T`: in the text of measures, those that are
/// top. It also sees whether the answer is yes.
#[derive(Drop)]
pub struct CountedTops<W> {
    /// The writer that everything goes on to.
    pub inner: W,
    /// The number of bytes `T` that were written, if they are counted.
    pub tops: Option<usize>,
    /// Whether the first bytes that were written say yes; None if none were written yet.
    is_yes: Option<bool>,
}

/// The answers that say yes.
const YES: [&[u8]; 4] = [b"WINS\n", b"ACCEPTED\n", b"REFUTES\n", b"SAME\n"];

impl<W> CountedTops<W> {
    /// Wraps a writer. What is written through it isn't counted yet.
    pub fn new(inner: W) -> CountedTops<W> {
        CountedTops {
            inner,
            tops: None,
            is_yes: None,
        }
    }

    /// Whether the answer is yes: `WINS`, `ACCEPTED`, `REFUTES` or `SAME`.
    pub fn is_yes(&self) -> bool {
        self.is_yes == Some(true)
    }

    /// Notes whether these bytes say yes, if they are the first that are written.
    fn see(&mut self, begun: &[u8])
        ensures { self.new.inner ≡ self.old.inner }
    {
        if self.is_yes.is_some() {
            return;
        }
        let mut is_yes = false;
        for word in YES {
            is_yes = is_yes || begun.starts_with(word);
        }
        self.is_yes = Some(is_yes);
    }

    fn count(&mut self, written: &[u8])
        ensures { self.new.inner ≡ self.old.inner }
    {
        if let Some(tops) = self.tops {
            self.tops = Some(tops.saturating_add(tops_in(written)));
        }
    }
}

impl<W: Write> Write for CountedTops<W> {
    ghost contents = { λ w. W.contents w.inner };

    fn write(&mut self, buf: &[u8]) -> io::Result<usize> {
        self.see(buf);
        let written = self.inner.write(buf)?;
        self.count(&buf[..written]);
        Ok(written)
    }

    fn flush(&mut self) -> io::Result<()> {
        self.inner.flush()
    }
}
