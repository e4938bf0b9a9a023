//! Items by number.
ghost use Rattle.std.specs.Prelude.{◌≡◌, ◌<◌, ◌≤◌, ◌+◌, ◌-◌, ◌*◌, true, slice_get, length};
ghost use Rattle.typed_marks.specs.Items.{is_in, is_item, is_nowhere, is_under, nowhere, IsItem, stage_number, number_in, number_of, AreBlocks};

use crate::item::{Block, Item, Stage};

fn is_in(node: usize, block: Block) -> bool
    ensures { result ≡ is_in node block }
{
    block.low <= node && node < block.end
}

fn block_at(blocks: &[Block], block: usize) -> Option<Block>
    ensures { result ≡ slice_get blocks.now block }
{
    blocks.get(block).copied()
}

/// Whether there is such an item.
pub fn is_item(blocks: &[Block], item: Item) -> bool
    ensures { result ≡ is_item blocks.now item }
{
    match block_at(blocks, item.block) {
        Some(block) => is_in(item.node, block),
        None => false,
    }
}

/// What is never marked: what waits for it waits for ever. It is no item.
pub fn nowhere(blocks: &[Block]) -> Item
    ensures { result ≡ nowhere blocks.now }
{
    Item {
        stage: Stage::Under,
        block: blocks.len(),
        node: 0,
    }
}

fn is_under(stage: Stage) -> bool
    ensures { result ≡ is_under stage }
{
    match stage {
        Stage::Before => false,
        Stage::Wanted => false,
        Stage::Judged => false,
        Stage::Placed => false,
        Stage::Object => false,
        Stage::Under => true,
    }
}

/// Whether that is never marked.
pub fn is_nowhere(blocks: &[Block], item: Item) -> bool
    ensures { result ≡ is_nowhere blocks.now item }
{
    is_under(item.stage) && (item.block == blocks.len() && item.node == 0)
}

fn stage_number(stage: Stage) -> usize
    ensures { result ≡ stage_number stage }
{
    match stage {
        Stage::Before => 0,
        Stage::Wanted => 1,
        Stage::Judged => 2,
        Stage::Placed => 3,
        Stage::Object => 4,
        Stage::Under => 5,
    }
}

fn number_in(stage: Stage, node: usize, block: Block, count: usize) -> usize
    requires within { block.start + 6 * (block.end - block.low) ≤ count }
    requires is { is_in node block ≡ true }
    ensures number { result ≡ number_in stage node block }
    ensures low { result < count }
{
    block.start + 6 * (node - block.low) + stage_number(stage)
}

/// The number of an item among all; `count` is how many there are.
pub fn number_of(blocks: &[Block], item: Item, count: usize) -> usize
    requires blocks { AreBlocks blocks.now count }
    requires item { IsItem blocks.now item }
    ensures number { result ≡ number_of blocks.now item }
    ensures low { result < count }
{
    match block_at(blocks, item.block) {
        Some(block) => number_in(item.stage, item.node, block, count),
        None => unreachable!(),
    }
}
