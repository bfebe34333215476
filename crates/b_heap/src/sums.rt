//! What numbers of classes add up to along superclasses.

ghost use Rattle.std.specs.Prelude.{◌≡◌, ◌≤◌, ◌+◌, ◌*◌, length, All, sum_by, slice_index, option_map};
ghost use Rattle.jnames.specs.Width.{width_of};
ghost use Rattle.jworld.specs.Upwards.{upwards, on_some};
ghost use Rattle.b_heap.specs.Objects.{rounded, level_cost};

use jnames::{Shape, width};
use jworld::{ClassId, World};

/// The number of a class, or 0 where there is none.
fn number_at(numbers: &[u32], class: ClassId) -> u32
    requires { All (λ n. n ≤ 524288) numbers.now }
    ensures value { result ≡ slice_index numbers.now class.n }
    ensures bound { result ≤ 524288 }
{
    match numbers.get(class.n as usize) {
        Some(number) => *number,
        None => 0,
    }
}

/// The sum of the numbers of a class and those above it.
pub fn summed(world: &World<'_>, numbers: &[u32], start: Option<ClassId>) -> u32
    requires { All (λ n. n ≤ 524288) numbers.now }
    ensures value { result ≡ sum_by (λ c. slice_index numbers.now c) (on_some (upwards world.now) (option_map (λ c. c.n) start)) }
    ensures bound { result ≤ 2052 * 524288 }
{
    let mut total = 0;
    let mut next = start;
    for _step in 0..world.count() {
        let Some(class) = next else {
            return total;
        };
        total += number_at(numbers, class);
        next = world.super_of(class);
    }
    total
}

/// The bytes that fields of these shapes take in one class.
pub fn level_cost(shapes: &[Shape]) -> u32
    requires { length shapes.now ≤ 65536 }
    ensures value { result ≡ level_cost shapes.now }
    ensures bound { result ≤ 524288 }
{
    let mut sum = 0;
    for shape in shapes {
        sum += width(*shape);
    }
    (sum + 7) / 8 * 8
}
