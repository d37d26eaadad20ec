//! The lines of the game of an automaton.

ghost use Rattle.std.specs.Prelude.{◌≡◌, ◌≤◌, ◌<◌, ◌⊎◌, ◌++◌, ◌∷◌, [], map, length, Err, OnOk, IfOk, IfErr};
ghost use Rattle.std.specs.List.{range_with_len, sum_by};
ghost use Rattle.pg_arena.specs.declared.fault.ArenaFault.TheVariants.{OutOfMemory, TooManyEdges};
ghost use Rattle.pg_arena.specs.Lines.{add_fault, Answers, IsGameOf};
ghost use Rattle.pg_list_lemmas.specs.Rising.{rising};
ghost use Rattle.pg_hoa_automaton.specs.Automata.{letters};
ghost use Rattle.pg_synth.specs.AutomatonGames.{IsPlaceOf, input_letters, place_identifier};
ghost use Rattle.pg_synth.specs.Mirrors.GameLines.{place_in, target, leads, edges_of, line_at, game_identifiers, game_lines};
ghost use Rattle.pg_synth.specs.Mirrors.Layouts.{IsLayoutOf};
ghost use Rattle.pg_synth.specs.declared.place.Place.TheVariants.{Answer};

use crate::layout::Layout;
use crate::place::{Place, deciding};
use pg_arena::{ArenaFault, Game, GameBuilder};
use pg_hoa_automaton::Automaton;
use std::alloc::{AllocError, Global};

/// Returns the identifiers of all vertices in rising order.
pub(crate) fn identifiers_of(
    alloc: Global,
    automaton: &Automaton,
    layout: &Layout,
) -> Result<Vec<u32>, AllocError>
    requires { IsLayoutOf automaton.now layout.now }
    ensures { IfOk result (λ list. list.items ≡ game_identifiers automaton.now) }
{
    let mut list = Vec::new(alloc);
    list.push(0)?;
    list.push(1 + automaton.start() * layout.width)?;
    for state in 0..automaton.states() {
        push_targets(&mut list, automaton, layout, state)?;
        push_answers(&mut list, automaton, layout, state)?;
    }
    put_each_once(&mut list);
    Ok(list)
}

/// Builds the game whose vertices have these identifiers. If together they have more than 8,388,608 edges, counting parallel edges once, it
/// fails with `TooManyEdges` at the first vertex with which there are too many. Otherwise it fails only if memory runs out.
pub(crate) fn built(
    alloc: Global,
    automaton: &Automaton,
    layout: &Layout,
    identifiers: &[u32],
) -> Result<Game, ArenaFault>
    requires laid { IsLayoutOf automaton.now layout.now }
    requires listed { identifiers.now ≡ game_identifiers automaton.now }
    requires vertices { length identifiers.now ≤ 1048576 }
    ensures game { IfOk result (IsGameOf (game_lines automaton.now)) }
    ensures few { OnOk result (sum_by (edges_of automaton.now) identifiers.now ≤ 8388608) }
    ensures many { result ≡ Err TooManyEdges → 8388608 < sum_by (edges_of automaton.now) identifiers.now }
    ensures fault { IfErr result (λ f. (f ≡ OutOfMemory) ⊎ (f ≡ TooManyEdges)) }
{
    let mut builder = GameBuilder::new(alloc);
    let mut successors = Vec::new(alloc);
    let mut name = Vec::new(alloc);
    for identifier in identifiers {
        add_vertex(
            &mut builder,
            &mut successors,
            &mut name,
            automaton,
            layout,
            *identifier,
        )?;
    }
    builder.finish()
}

/// Adds the vertex with this identifier. Its successors and its name are built in the given vectors, whose contents are replaced. It fails
/// if the builder doesn't take its line, or if memory runs out.
fn add_vertex(
    builder: &mut GameBuilder,
    successors: &mut Vec<u32>,
    name: &mut Vec<u8>,
    automaton: &Automaton,
    layout: &Layout,
    identifier: u32,
) -> Result<(), ArenaFault>
    requires laid { IsLayoutOf automaton.now layout.now }
    requires place { IsPlaceOf automaton.now (place_in automaton.now identifier) }
    ensures answer { Answers result (add_fault builder.old (line_at automaton.now identifier)) }
    ensures added { OnOk result (builder.new ≡ builder.old ++ line_at automaton.now identifier ∷ []) }
{
    let place = Place::with_identifier(identifier, automaton.sets(), layout.width);
    put_leads(successors, automaton, layout, place)?;
    place.put_name(name)?;
    let priority = place.priority(automaton.shape(), automaton.sets());
    builder.add(identifier, priority, place.owner(), successors, Some(name))
}

/// Replaces the list with the identifiers of the places to which a place leads, letter by letter.
fn put_leads(
    list: &mut Vec<u32>,
    automaton: &Automaton,
    layout: &Layout,
    place: Place,
) -> Result<(), AllocError>
    requires laid { IsLayoutOf automaton.now layout.now }
    requires place { IsPlaceOf automaton.now place }
    ensures { OnOk result (list.new.items ≡ leads automaton.now place) }
{
    list.clear();
    match place {
        Place::Dead => list.push(0)?,
        Place::Arrival(state, _) => push_answers(list, automaton, layout, state)?,
        Place::Answer(state, input) => {
            let part = layout.inputs[input as usize];
            for other in &layout.outputs {
                list.push(target(automaton, layout, state, part + *other))?;
            }
        }
    }
    Ok(())
}

/// Appends the identifiers of the places to which the letters lead from a state.
fn push_targets(
    list: &mut Vec<u32>,
    automaton: &Automaton,
    layout: &Layout,
    state: u32,
) -> Result<(), AllocError>
    requires laid { IsLayoutOf automaton.now layout.now }
    requires state { state < automaton.now.states }
    ensures { OnOk result (list.new.items
        ≡ list.old.items ++ map (target automaton.now state) (range_with_len 0 (letters automaton.now))) }
{
    for letter in 0..1 << automaton.propositions() {
        list.push(target(automaton, layout, state, letter))?;
    }
    Ok(())
}

/// Appends the identifiers of the answers at a state.
fn push_answers(
    list: &mut Vec<u32>,
    automaton: &Automaton,
    layout: &Layout,
    state: u32,
) -> Result<(), AllocError>
    requires laid { IsLayoutOf automaton.now layout.now }
    requires state { state < automaton.now.states }
    ensures { OnOk result (list.new.items
        ≡ list.old.items ++ map
        (λ i. place_identifier automaton.now (Answer state i)) (range_with_len 0 (input_letters automaton.now))) }
{
    let first = first_answer(automaton, layout, state);
    for input in 0..layout.inputs.len() as u32 {
        list.push(first + input)?;
    }
    Ok(())
}

/// Returns the identifier of the answer at a state to the first input letter. The answers to the other letters follow it.
pub(crate) fn first_answer(automaton: &Automaton, layout: &Layout, state: u32) -> u32
    requires laid { IsLayoutOf automaton.now layout.now }
    requires state { state < automaton.now.states }
    ensures { result ≡ place_identifier automaton.now (Answer state 0) }
{
    1 + state * layout.width + automaton.sets() + 1
}

/// Returns the identifier of the place to which a letter leads from a state.
pub(crate) fn target(automaton: &Automaton, layout: &Layout, state: u32, letter: u32) -> u32
    requires laid { IsLayoutOf automaton.now layout.now }
    requires state { state < automaton.now.states }
    requires letter { letter < letters automaton.now }
    ensures { result ≡ target automaton.now state letter }
{
    match automaton.next(state, letter) {
        None => 0,
        Some((target, sets)) => {
            let first = 1 + target * layout.width;
            match deciding(automaton.shape(), sets) {
                None => first,
                Some(set) => first + 1 + set,
            }
        }
    }
}

/// Sorts the list and keeps each number only once.
fn put_each_once(list: &mut Vec<u32>)
    ensures { list.new.items ≡ rising list.old.items }
{
    list.sort_unstable();
    list.dedup();
}
