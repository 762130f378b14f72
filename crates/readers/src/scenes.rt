//! The reader of a scene.
ghost use Rattle.std.specs.Prelude.{◌≡◌, ◌+◌, ◌<◌, ◌≤◌, [], IfOk, MatchResult, OnErr, OnOk};
ghost use Rattle.refusal.specs.Checks.{and_then};
ghost use Rattle.words.specs.Cursor.{text, place, bytes_left, Moved, Begun};
ghost use Rattle.words.specs.Reading.{answer_with};
ghost use Rattle.scene.specs.Scenes.{scene_body};
ghost use Rattle.scene.specs.declared.table.TheConstants.{MOST_NODES};
ghost use Rattle.readers.specs.Scenes.{at_node, is_exact_enough, node_check, node_at, end_answer, nodes_from, scene_length, scene_of, put_scene};
ghost use Rattle.readers.specs.LaysDown.{nodes_in, bodies_in, LaysDown};
ghost use Rattle.readers.specs.ScenesBack.{ScenesReadBack};

use crate::fault::SceneFault;
use crate::kind::NodeKind;
use lattice::{LEAST_COORDINATE, MOST_COORDINATE, MOST_OFFSET};
use leaves::{LEAST_RADIUS, MOST_RADIUS};
use piles::{LEAST_THICKNESS, MOST_THICKNESS};
use scene::{Draft, DraftFault, Scene};
use words::{Kind as WordKind, Reader};

/// A scene has this many words after its start word at least, and at most.
const LEAST_WORDS: u32 = 1;

const MOST_WORDS: u32 = 1792;

/// The fault of the node at a place.
fn at_node<T>(place: usize, answer: Result<T, DraftFault>) -> Result<T, SceneFault>
    ensures { result ≡ at_node place answer }
{
    answer.map_err(|fault| SceneFault::Node { fault, place })
}

/// Is what a thickening takes exact?
fn is_exact_enough(draft: &Draft, kind: NodeKind) -> bool
    ensures { result ≡ is_exact_enough kind (bodies_in draft.now) }
{
    match kind {
        NodeKind::Thicken => draft.last_is_exact(),
        _ => true,
    }
}

/// What is looked at before the numbers of the node at a place.
#[tactic(auto, unfolding(crate::specs::Scenes::node_check))]
fn check(draft: &Draft, kind: NodeKind, place: usize, count: usize) -> Result<(), SceneFault>
    requires { place ≤ MOST_WORDS }
    ensures { result ≡ node_check count place (nodes_in draft.now) kind (bodies_in draft.now) }
{
    at_node(place, draft.check_room())?;
    if place + kind.number_count() > count {
        return Err(SceneFault::Numbers { place });
    }
    if draft.standing() < kind.nodes_taken() {
        return at_node(place, Err(DraftFault::TooFew));
    }
    if !is_exact_enough(draft, kind) {
        return at_node(place, Err(DraftFault::Inexact));
    }
    Ok(())
}

/// Reads the numbers of the node at a place, and lays it down.
#[tactic(auto, unfolding(crate::specs::Scenes::lay_at))]
fn lay(
    from: &mut Reader<'_>,
    draft: &mut Draft,
    node: usize,
    kind: NodeKind,
) -> Result<(), SceneFault>
    requires here { place from.old ≡ node + 1 }
    requires room { nodes_in draft.old < MOST_NODES }
    ensures { LaysDown kind node result from.old from.new draft.old draft.new }
{
    match kind {
        NodeKind::Ball => {
            let centre = from.point(LEAST_COORDINATE, MOST_COORDINATE)?;
            let radius = from.number_in(LEAST_RADIUS, MOST_RADIUS)?;
            at_node(node, draft.ball(centre, radius))
        }
        NodeKind::Block => {
            let lo = from.point(LEAST_COORDINATE, MOST_COORDINATE)?;
            let hi = from.point(LEAST_COORDINATE, MOST_COORDINATE)?;
            at_node(node, draft.block(lo, hi))
        }
        NodeKind::Unite => at_node(node, draft.unite()),
        NodeKind::Meet => at_node(node, draft.meet()),
        NodeKind::Shift => {
            let by = from.point(-MOST_OFFSET, MOST_OFFSET)?;
            at_node(node, draft.shift(by))
        }
        NodeKind::Thicken => {
            let by = from.number_in(LEAST_THICKNESS, MOST_THICKNESS)?;
            at_node(node, draft.thicken(by))
        }
    }
}

/// Reads a node.
#[tactic(auto, unfolding(crate::specs::Scenes::node_at))]
fn node(from: &mut Reader<'_>, draft: &mut Draft, count: usize) -> Result<(), SceneFault>
    requires { place from.old ≤ MOST_WORDS }
    ensures value { answer_with result (bodies_in draft.new, place from.new)
        ≡ node_at (text from.old) count (place from.old)
        (nodes_in draft.old) (bodies_in draft.old) }
    ensures counted { OnOk result (nodes_in draft.new ≡ nodes_in draft.old + 1) }
    ensures text { text from.new ≡ text from.old }
    ensures within { OnOk result (place from.new ≤ count + 1) }
    ensures onward { OnOk result (place from.old < place from.new) }
{
    let place = from.place();
    let number = from.bare(WordKind::Ball.number(), WordKind::Thicken.number())?;
    let kind = NodeKind::try_from(number).unwrap();
    check(draft, kind, place, count)?;
    lay(from, draft, place, kind)
}

/// Reads nodes until the scene's words are read.
fn nodes(from: &mut Reader<'_>, draft: &mut Draft, count: usize) -> Result<(), SceneFault>
    requires few { count ≤ MOST_WORDS }
    requires some { LEAST_WORDS ≤ count }
    requires here { place from.old ≡ 1 }
    requires no_nodes { nodes_in draft.old ≡ 0 }
    requires no_bodies { bodies_in draft.old ≡ [] }
    ensures value { and_then (answer_with result (bodies_in draft.new)) (end_answer count)
        ≡ nodes_from count (text from.old) count 1 0 [] }
    ensures text { text from.new ≡ text from.old }
    ensures moved { OnOk result (place from.new ≡ 1 + count) }
{
    while from.place() <= count {
        node(from, draft, count)?;
    }
    Ok(())
}

/// Reads the start word: how many words come after it.
#[tactic(auto, unfolding(crate::specs::Scenes::scene_length))]
fn count(from: &mut Reader<'_>) -> Result<usize, SceneFault>
    requires { place from.old ≡ 0 }
    ensures value { result ≡ scene_length (text from.old) }
    ensures moved { OnOk result (Moved result 1 from.old from.new) }
    ensures range { IfOk result (λ n. (LEAST_WORDS ≤ n) × (n ≤ MOST_WORDS)) }
{
    let count = from.rest_of(WordKind::Scene)?;
    if !(LEAST_WORDS..=MOST_WORDS).contains(&count) {
        return Err(SceneFault::Count);
    }
    Ok(count as usize)
}

/// Reads a scene, which begins at the word that is due, into a place that the caller holds. A
/// refused one leaves the reader and the caller's scene as they were. Every scene is read back
/// from its words.
pub fn read_scene(from: &mut Reader<'_>, scene: &mut Scene) -> Result<(), SceneFault>
    ensures value { (result, scene_body scene.new)
        ≡ put_scene (scene_body scene.old) (scene_of (bytes_left from.old)) }
    ensures read { MatchResult (scene_of (bytes_left from.old))
        (λ x. Begun (1 + x.0) from.old from.new)
        (λ _. from.new ≡ from.old) }
    ensures same { OnErr result (scene.new ≡ scene.old) }
    ensures back { ScenesReadBack }
{
    // By a copy, so that a refused scene leaves the reader where it was.
    let mut ahead = *from;
    ahead.next_part();
    let count = count(&mut ahead)?;
    let mut draft = Draft::new();
    nodes(&mut ahead, &mut draft, count)?;
    at_node(count, scene.fill(&draft))?;
    *from = ahead;
    Ok(())
}
