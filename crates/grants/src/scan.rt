// A scan of the whole image: whether it names living items only. No branch and no exit within an item's block.
ghost use Rattle.std.specs.Prelude.{◌≡◌, ◌<◌, length};
ghost use Rattle.bits.specs.Sets.{all_below};
ghost use Rattle.layouts.specs.Live.{masks_of};
ghost use Rattle.layouts.specs.Layouts.{grant_bytes, grant_cells};
ghost use Rattle.layouts.specs.Order.{block_ok};

use layouts::live;

// Whether the block of an item names living items only. Each grant of a dead item's block is shown.
fn item_ok(grants: &[u8], on: usize, masks: &[u8; 64]) -> bool
    requires { (length grants.now ≡ grant_cells) × (on < 64) × (masks.now ≡ masks_of grants.now) }
    ensures { result ≡ block_ok grant_bytes grants.now 4096 on }
{
    let at = 8 + 512 * on;
    let end = at + 512;
    live::hides(&grants[at..end], masks[on], masks)
}

pub fn items_ok(grants: &[u8], masks: &[u8; 64]) -> bool
    requires { (length grants.now ≡ grant_cells) × (masks.now ≡ masks_of grants.now) }
    ensures { result ≡ all_below 64 (block_ok grant_bytes grants.now 4096) }
{
    (0..64).all(|on| item_ok(grants, on, masks))
}
