// The hash of a name, which does not regard case.
ghost use Rattle.std.specs.Prelude.{◌≡◌, ◌<◌};
ghost use Rattle.naming.specs.Table.{hash_of};

use crate::BUCKETS;
use scanner::bytes;

// The bucket of a name.
pub fn hash(name: &[u8]) -> usize
    ensures hash { result ≡ hash_of name.now }
    ensures bucket { result < 1024 }
{
    let mut h = 0;
    for b in name {
        h = (33 * h + usize::from(bytes::to_lower(*b))) % BUCKETS;
    }
    h
}
