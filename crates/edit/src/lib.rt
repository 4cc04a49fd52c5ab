// The edits of the permuted values through the map.
//
//   indices   i i . . i      places of the caller's values, in any order, a place as often as it stands there
//   map       p p p . p      the place of each in the permuted values
//   vals      v v v . v      the permuted values
//
// They come one by one: three words at a call, of which a type of their own would say no more.
#![tactic(auto)]

ghost use Rattle.std.specs.Prelude.{◌≡◌, ◌<◌, length, get_or};
ghost use Rattle.edit.specs.Edit.{updated, scaled, offset_by, offset as offsetted};
ghost use Rattle.edit.specs.Kernels.{Editable};

use desk::wide;

// The place in the permuted values of an index.
fn place(map: &[u32], index: u32) -> usize
    requires { index < length map.now }
    ensures { result ≡ get_or map.now index 0 }
{
    wide(map[wide(index)])
}

// What an offset makes of the value old: a sign above 0 adds, one below 0 subtracts.
fn offset_by(offset: f64, sign: i8, old: f64) -> f64
    ensures { result ≡ offset_by offset sign old }
{
    match sign {
        1..=127 => old + offset,
        -128..=-1 => old - offset,
        0 => old,
    }
}

// Writes each value to the place of its index.
pub fn update_values(map: &[u32], indices: &[u32], values: &[f64], vals: &mut [f64])
    requires editable { Editable map.now indices.now vals.old }
    requires values_len { length values.now ≡ length indices.now }
    ensures { vals.new ≡ updated map.now indices.now values.now vals.old }
{
    for (j, index) in indices.iter().enumerate() {
        let p = place(map, *index);
        vals[p] = values[j];
    }
}

// Multiplies the value at the place of each index by scale.
pub fn scale_values(map: &[u32], indices: &[u32], scale: f64, vals: &mut [f64])
    requires { Editable map.now indices.now vals.old }
    ensures { vals.new ≡ scaled map.now indices.now scale vals.old }
{
    for index in indices {
        let p = place(map, *index);
        vals[p] = vals[p] * scale;
    }
}

// Adds offset at the place of each index, or subtracts it, as the index's sign says.
pub fn offset_values(map: &[u32], indices: &[u32], offset: f64, signs: &[i8], vals: &mut [f64])
    requires editable { Editable map.now indices.now vals.old }
    requires signs_len { length signs.now ≡ length indices.now }
    ensures { vals.new ≡ offsetted map.now indices.now offset signs.now vals.old }
{
    for (j, index) in indices.iter().enumerate() {
        let p = place(map, *index);
        vals[p] = offset_by(offset, signs[j], vals[p]);
    }
}
