ghost use Rattle.std.specs.Prelude.{◌≡◌, ◌++◌, flat_map, OnOk};
ghost use Rattle.formula_reader.specs.Tree.{expression_of};
ghost use Rattle.cell_calc.specs.CellValue.{areas_of};

use crate::cells::CellsOf;
use cell_value::NoMemory;
use formula_reader::Tree;
use grid_range::Area;

/// Puts the areas of a formula's tree behind others: those of its references, and of its words that name ranges.
#[cycle(areas)]
pub(crate) fn add_areas<C: CellsOf>(
    cells: &C,
    tree: &Tree,
    areas: &mut Vec<Area>,
) -> Result<(), NoMemory>
    ensures { OnOk result (areas.new.items
        ≡ areas.old.items ++ areas_of (C.contents cells.now).named (expression_of tree.now)) }
{
    match tree {
        Tree::Number(_) => Ok(()),
        Tree::Text(_) => Ok(()),
        Tree::Truth(_) => Ok(()),
        Tree::Ref(area) => Ok(areas.push(*area)?),
        Tree::Lost => Ok(()),
        Tree::Word(word) => match cells.name(word.as_str()) {
            Some(area) => Ok(areas.push(area)?),
            None => Ok(()),
        },
        Tree::Negate(operand) => add_areas(cells, operand, areas),
        Tree::Binary(_, left, right) => {
            add_areas(cells, left, areas)?;
            add_areas(cells, right, areas)
        }
        Tree::Call(_, trees) => add_all_areas(cells, trees.as_slice(), areas),
    }
}

/// Puts the areas of each tree behind others.
#[cycle(areas)]
fn add_all_areas<C: CellsOf>(
    cells: &C,
    trees: &[Tree],
    areas: &mut Vec<Area>,
) -> Result<(), NoMemory>
    ensures { OnOk result (areas.new.items ≡ areas.old.items
        ++ flat_map (λ tree. areas_of (C.contents cells.now).named (expression_of tree)) trees.now) }
{
    for tree in trees {
        add_areas(cells, tree, areas)?;
    }
    Ok(())
}
