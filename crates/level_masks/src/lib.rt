// For each mask of a gate's fanins an alike one, itself or a smaller one: nets of one level are alike.
#![tactic(auto)]

ghost use Rattle.std.specs.Prelude.{◌≡◌, ◌^◌, ◌<◌, ◌≤◌, length};
ghost use Rattle.plan.specs.Limits.{masks};
ghost use Rattle.level_arrays.specs.Alike.{fan_labels, LikeMasks};
ghost use Rattle.level_masks.specs.Like.{LikeBit, LikeMask, LikesPut};

use level_arrays::Fans;
use plan::MASKS;

// The bit of a fanin up to h that is alike: that of the last net before h with its level, or its own, which is `top`.
fn like_bit(f: Fans, h: usize, top: usize) -> usize
    requires { (h < 10) × (top ≡ 2 ^ h) }
    ensures { LikeBit f h result }
{
    if f.lines[h] > 0 {
        return top;
    }
    let level = f.levels[h];
    for j in (0..h).rev() {
        if f.lines[j] == 0 && f.levels[j] == level {
            return 1 << j;
        }
    }
    top
}

// The mask that is alike to top + r, where m is alike to r, and `bit` that of a fanin like the one of `top`.
fn like_mask(top: usize, bit: usize, r: usize, m: u16) -> usize
    requires { (r < top) × (bit ≤ top) × (top ≤ 512) }
    ensures { LikeMask top bit r m result }
{
    let m = m as usize;
    if m < r {
        return top + m;
    }
    if r & bit == 0 {
        return r + bit;
    }
    top + r
}

// Puts the masks that are alike to those from `top` on, which have the highest bit `top`.
fn put_masks(top: usize, bit: usize, like: &mut [u16; MASKS])
    requires { (bit ≤ top) × (top ≤ 512) × (length like.old ≡ masks) }
    ensures { LikesPut top bit like.old like.new top }
{
    for r in 0..top {
        like[top + r] = like_mask(top, bit, r, like[r]) as u16;
    }
}

// Puts an alike mask for each mask of a gate's fanins, and gives the number past the last mask.
pub fn like_masks(f: Fans, like: &mut [u16; MASKS]) -> usize
    requires { (f.count ≤ 10) × (length like.old ≡ masks) }
    ensures { LikeMasks (fan_labels f) like.new (2 ^ f.count) × (length like.new ≡ masks) × (result ≡ 2 ^ f.count) }
{
    let count = f.count as usize;
    for h in 0..count {
        let top = 1 << h;
        put_masks(top, like_bit(f, h, top), like);
    }
    1 << count
}
