// The edits, each of a list in which two indices come twice.
ghost use Rattle.std.specs.Prelude.{◌≡◌, length};

use csc::reaches;
use edit::{offset_values, scale_values, update_values};
use say::Values;
use std::io;

// Edits three copies of three values, each in its way, and says whether the map and the indices passed their tests: what else there
// is to say lies in the lists.
fn edited(
    map: &[u32; 3],
    indices: &[u32; 5],
    updated: &mut [f64],
    scaled: &mut [f64],
    offset: &mut [f64],
) -> bool
    requires updated_len { length updated.old ≡ 3 }
    requires scaled_len { length scaled.old ≡ 3 }
    requires offset_len { length offset.old ≡ 3 }
{
    if reaches(map, 3) || reaches(indices, 3) {
        return false;
    }
    update_values(map, indices, &[5.0, 7.0, 8.0, 9.0, 6.0], updated);
    scale_values(map, indices, 2.0, scaled);
    offset_values(map, indices, 10.0, &[1, 127, 0, -1, -128], offset);
    true
}

// Index 0 goes to place 2, index 1 to place 0 and index 2 to place 1.
pub fn repeated(rt: &impl Print) -> io::Result<()> {
    let mut updated = [1f64, 22.0, 3.0];
    let mut scaled = [1f64, 22.0, 3.0];
    let mut offset = [1f64, 22.0, 3.0];
    print!(rt; "permuted values 1,22,3, map 2,0,1, indices 0,0,1,2,2: ")?;
    if edited(
        &[2, 0, 1],
        &[0, 0, 1, 2, 2],
        &mut updated,
        &mut scaled,
        &mut offset,
    ) {
        println!(rt; "edited")?;
        println!(rt; "  updated to 5,7,8,9,6:{}", Values(&updated))?;
        println!(rt; "  scaled by 2:{}", Values(&scaled))?;
        println!(rt; "  offset by 10, signs 1,127,0,-1,-128:{}", Values(&offset))
    } else {
        println!(rt; "refused")
    }
}
