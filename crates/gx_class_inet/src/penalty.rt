//! How much a key grows where another is united with it.

ghost use Rattle.std.specs.Prelude.{◌≡◌};
ghost use Rattle.gx_class_inet.specs.Keys.{IsKey};
ghost use Rattle.gx_class_inet.specs.Growths.{growth};

use crate::InetKey;
use crate::join::common_of;

/// How many bits in common are lost, and 128 where the key becomes mixed.
pub fn growth_of(key: InetKey, added: InetKey) -> u128
    requires key { IsKey key }
    requires added { IsKey added }
    ensures { result ≡ growth key added }
{
    match (key, added) {
        (InetKey::Mixed, _) => 0,
        (InetKey::Family(_), InetKey::Mixed) => 128,
        (InetKey::Family(a), InetKey::Family(b)) => {
            if a.v6 == b.v6 {
                u128::from(a.common.saturating_sub(common_of(a, b)))
            } else {
                128
            }
        }
    }
}
