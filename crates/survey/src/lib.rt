// Surveys the circuit that a source is: builds the diagrams of its signals, and explores its states.
#![tactic(auto)]

ghost use Rattle.std.specs.Prelude.{◌≡◌, ◌*◌, ◌≤◌, min, length};
ghost use Rattle.circuit.specs.Limits.{most_wired};
ghost use Rattle.source.specs.Source.{head_of, sourced, SourceOf};
ghost use Rattle.survey.specs.Survey.{most_records, ShapeOf, LayoutOf, Surveyable, Surveyed};

use build::build;
use circuit::Limits as Circuit;
use conjoin::Shape;
use explore::{Layout, Limits, explore};
use nodes::Node;
use records::clear;
use sizes::power;
use source::Source;
use verdict::Refusal;

// How many numbers the work of a survey takes: the ids of all signals, and room for those of candidates; and how many records any circuit can need.
#[derive(Drop)]
pub struct Bounds;

impl Bounds {
    pub const WORK: usize = Circuit::SIGNALS + Limits::COLUMNS;

    const RECORDS: usize = 536870912;
}

// How many states each layer has, 0 beyond the last.
pub type Counts = [u16; Limits::LAYERS];

// What a survey finds: the counts of all layers, or 18.
pub type Survey = Result<Counts, Refusal>;

// As many of the records as any circuit can need.
fn room_of(records: usize) -> u32
    ensures { result ≡ min records most_records }
{
    records.min(Bounds::RECORDS) as u32
}

// As many of the records as any circuit can need, the inputs of all frames, and the cache behind the ids of all signals.
fn shape_of(source: Source, records: usize) -> Shape
    requires { (1 ≤ source.base) × (source.base ≤ 17) }
    ensures { ShapeOf (head_of source) records result }
{
    Shape {
        room: room_of(records),
        inputs: (source.base - 1) as u32,
        cache: Circuit::SIGNALS,
    }
}

// The sizes, and where things lie.
pub fn layout_of(source: Source) -> Layout
    requires { (source.inputs ≤ 16) × (source.inputs * source.frames ≤ 16) × (source.total ≤ source.gates) × (source.gates ≤ most_wired) × (source.base ≤ 17) }
    ensures { LayoutOf (head_of source) result }
{
    Layout {
        fan: power(source.inputs),
        bits: source.inputs,
        frames: source.frames,
        outputs: source.outputs,
        half: power(source.inputs * source.frames),
        roots: source.base + (source.gates - source.total),
        columns: Circuit::SIGNALS,
    }
}

// Surveys a circuit, or a network by its source, that is accepted, with a clean scratch and a clean work: builds its diagrams in the list, whatever that holds, and explores its states.
pub fn survey_circuit(
    circuit: &[u8],
    scratch: &mut [u16],
    nodes: &mut [Node],
    work: &mut [u32],
    source: Source,
) -> Survey
    requires { SourceOf circuit.now source × Surveyable (sourced source circuit.now) scratch.old work.old }
    ensures { Surveyed (sourced source circuit.now) (length nodes.old) nodes.new scratch.old scratch.new work.new result }
{
    clear(nodes);
    let shape = shape_of(source, nodes.len());
    build(circuit, source, nodes, work, shape)?;
    let cursor = explore(nodes, scratch, work, layout_of(source));
    Ok(cursor.counts)
}
