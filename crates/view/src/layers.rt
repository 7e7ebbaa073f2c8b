// Layer outputs: the output words of one layer, as a part of the caller's own table.
ghost use Rattle.std.specs.Prelude.{◌≡◌, IfOk};
ghost use Rattle.view.specs.Layers.{layer_checked, layer_outputs, located, layer_figures, shown_figures, behind};
ghost use Rattle.view.specs.Theorems.{LayerStands, LayerTells, LayersJoin};

use table::head::{entries_below, states_of};
use table::{Layout, check};
use verdict::{Figures, Refusal};

// Where the output words of a layer stand in its table: at a byte offset, so many bytes.
#[derive(Clone, Copy)]
pub struct Part {
    pub offset: usize,
    pub length: usize,
}

pub type Located = Result<Part, Refusal>;

// Document 01's number and place, and the offset and length of the part.
#[derive(Clone, Copy)]
pub struct LayerFigures {
    pub number: usize,
    pub place: usize,
    pub offset: usize,
    pub length: usize,
}

impl From<Located> for LayerFigures {
    ghost from_gives = { λ found figures. figures ≡ layer_figures found };

    fn from(found: Located) -> LayerFigures {
        match found {
            Ok(part) => LayerFigures {
                number: 0,
                place: 0,
                offset: part.offset,
                length: part.length,
            },
            Err(refusal) => {
                let Figures { number, place } = Figures::from(refusal);
                LayerFigures {
                    number,
                    place,
                    offset: 0,
                    length: 0,
                }
            }
        }
    }
}

// Where the output words of a layer stand. The end layer has none: its part is empty, and stands at 0.
#[tactic(auto, using(crate::proofs::LayerParts::layer_stands))]
pub fn locate(table: &[u8], layer: usize) -> Located
    ensures answer { layer_figures result ≡ located table.now layer }
    ensures stands { LayerStands table.now layer }
{
    check(table)?;
    let layout = Layout::read(table);
    let last = layout.frames;
    if last < layer {
        return Err(Refusal::Position(layer));
    }
    if layer == last {
        return Ok(Part {
            offset: 0,
            length: 0,
        });
    }
    let below = entries_below(table, layout.words, layer);
    let entries = states_of(table, layer) * layout.words;
    Ok(Part {
        offset: layout.outputs + 2 * below,
        length: 2 * entries,
    })
}

// The output words of a layer, in the table itself: a part of it, and no copy. That of the end layer is empty.
#[tactic(auto, using(crate::proofs::LayerParts::layer_tells, crate::proofs::LayerParts::layers_join))]
pub fn layer_outputs<'a>(table: &'a [u8], layer: usize) -> Result<&'a [u8], Refusal>
    ensures verdict { shown_figures result ≡ layer_checked table.now layer }
    ensures part { IfOk result (λ part. part.now ≡ layer_outputs table.now layer) }
    ensures own { IfOk result (λ part. part.ref_ptr ≡ behind (located table.now layer).offset table.entry.ref_ptr) }
    ensures tells { LayerTells table.now layer }
    ensures joins { LayersJoin table.now }
{
    let part = locate(table, layer)?;
    Ok(&table[part.offset..part.offset + part.length])
}
