//! Laws of the definitions. A law is a function without arguments whose contract states it.

ghost use Rattle.seams.specs.Seams.{HaveNoSeams, SharedChainsCancel};

use smoothing::laws::alphas;
use supersampling::laws::blocks_have_whole_pixels;

/// Two polygons on the two sides of a chain that both have, the one forth and the other back, cover together what the
/// ring round both covers.
pub fn shared_chains()
    ensures { SharedChainsCancel }
{}

/// Where two such polygons are painted in a colour each, a pixel of the smoothed picture whose fine pixels all lie
/// inside of that ring is opaque, and doesn't depend on what was painted before.
pub fn no_seams()
    ensures { HaveNoSeams }
{
    blocks_have_whole_pixels();
    alphas();
}
