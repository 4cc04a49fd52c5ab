// An ordering, perm[new] = old: the test that it is one, its inverse, and the two permutations.
#![tactic(auto)]

ghost use Rattle.std.specs.Prelude.{◌≡◌, ◌≤◌, ◌<◌, ◌^◌, length};
ghost use Rattle.desk.specs.Lists.{over};
ghost use Rattle.order.specs.Order.{permuted, ipermuted};
ghost use Rattle.order.specs.Kernels.{Inverted, Fitting};

use desk::{fill, wide};

// What stands in the inverse where no number has come yet: no place of an ordering, and a number, since the table is the caller's.
const UNSET: u32 = 4294967295;

// Whether perm is an ordering; if so the front of iperm is its inverse. The table is lent, so the answer has nothing to carry.
pub fn invperm(perm: &[u32], iperm: &mut [u32]) -> bool
    requires perm_in_bounds { length perm.now ≤ length iperm.old }
    requires perm_len_bound { length perm.now < 2 ^ 32 }
    ensures { Inverted perm.now iperm.old iperm.new result }
{
    let n = perm.len();
    fill(&mut *iperm, n, UNSET);
    for (i, number) in perm.iter().enumerate() {
        let j = wide(*number);
        if n <= j {
            return false;
        }
        if iperm[j] != UNSET {
            return false;
        }
        iperm[j] = i as u32;
    }
    true
}

// x[i] = b[p[i]].
pub fn permute<T: Copy>(x: &mut [T], b: &[T], p: &[u32])
    requires { Fitting p.now b.now x.old }
    ensures { (d : T) → x.new ≡ over (permuted d p.now b.now) x.old }
{
    for (i, number) in p.iter().enumerate() {
        let j = wide(*number);
        x[i] = b[j];
    }
}

// x[p[i]] = b[i].
pub fn ipermute<T: Copy>(x: &mut [T], b: &[T], p: &[u32])
    requires { Fitting p.now b.now x.old }
    ensures { (d : T) → x.new ≡ over (ipermuted d p.now b.now) x.old }
{
    for (i, number) in p.iter().enumerate() {
        let j = wide(*number);
        x[j] = b[i];
    }
}
