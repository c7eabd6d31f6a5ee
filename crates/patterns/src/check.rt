// The check of a row: whether its elements are well formed.
ghost use Rattle.std.specs.Prelude.{◌≡◌, ℕ, ◌<◌, ◌≤◌, length, Decides};
ghost use Rattle.patterns.specs.Elements.{element_at, ends, around, Sits, WellFormed, IsPattern};

use crate::limits::{MAX_ELEMENTS, MAX_GROUPS};
use crate::row::{Element, Row};

// Whether the element behind these ends inside each group that holds it, where it ends at end, and no more than 16 hold it.
fn is_nested(before: &[Element], end: usize) -> bool
    ensures { let i = length before.now in Decides result (((g : ℕ) → g < i → i < ends before.now g → end ≤ ends before.now g) × (around before.now i i ≤ 16)) }
{
    // Kept as one loop with a count: a pass for each of the two questions took twice the time.
    let mut groups = 0;
    for (g, outer) in before.iter().enumerate() {
        let outer = g + outer.extent();
        if before.len() < outer {
            if outer < end {
                return false;
            }
            groups += 1;
        }
    }
    groups <= MAX_GROUPS
}

// Whether the element at i is well formed.
fn sits(elements: &[Element], i: usize) -> bool
    requires { i < length elements.now }
    ensures { Decides result (Sits elements.now i) }
{
    let before = &elements[..i];
    let element = elements[i];
    let end = i + element.extent();
    element.is_sized() && end <= elements.len() && is_nested(before, end)
}

// Whether each element is well formed.
fn all_sit(elements: &[Element]) -> bool
    ensures { Decides result ((i : ℕ) → i < length elements.now → Sits elements.now i) }
{
    (0..elements.len()).all(|i| sits(elements, i))
}

// Whether there are 1 to 64 elements, each well formed.
fn is_well_formed(elements: &[Element]) -> bool
    ensures { Decides result (WellFormed elements.now) }
{
    !elements.is_empty() && elements.len() <= MAX_ELEMENTS && all_sit(elements)
}

/// Whether a row is a pattern.
pub fn is_pattern(row: &Row) -> bool
    ensures { Decides result (IsPattern row.now) }
{
    row.elements.get(..row.count).is_some_and(is_well_formed)
}
