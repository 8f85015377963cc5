// The two hashes that a session's codes may be made with, and the masks that name them: document 001, Table 5.1, and document 02, K2.
#![tactic(auto, unfolding(crate::specs::Hashes::named, crate::specs::Hashes::allowed_one, crate::specs::Hashes::in_common, crate::specs::Hashes::chosen, crate::specs::Hashes::NamedAlone))]

ghost use Rattle.std.specs.Prelude.{◌≡◌, cond};
ghost use Rattle.hashes.specs.Hashes.{hash_mask, digest_size, has, named, names_one, good_allowed, allowed_one, in_common, chosen, NamedAlone};

#[derive(Clone, Copy, PartialEq, Eq)]
pub enum Hash {
    Sha256,
    Sha512,
}

// A mask that names no hash alone.
#[derive(Clone, Copy, PartialEq, Eq)]
pub struct NotOneHash;

// The hash that a mask names alone.
impl TryFrom<u64> for Hash {
    type Error = NotOneHash;

    ghost try_from_gives = { NamedAlone };

    fn try_from(mask: u64) -> Result<Hash, NotOneHash> {
        match mask {
            1 => Ok(Hash::Sha256),
            4 => Ok(Hash::Sha512),
            _ => Err(NotOneHash),
        }
    }
}

impl Hash {
    // The mask of the hash alone.
    // Kept: a method: a From would not tell whether the number is the mask or the size.
    pub fn mask(self) -> u64
        ensures { result ≡ hash_mask self }
    {
        match self {
            Hash::Sha256 => 1,
            Hash::Sha512 => 4,
        }
    }

    // Bytes in a digest, and so in a code.
    pub fn size(self) -> usize
        ensures { result ≡ digest_size self }
    {
        match self {
            Hash::Sha256 => 32,
            Hash::Sha512 => 64,
        }
    }

    // Whether the hash is among those of a mask.
    pub fn is_in(self, mask: u64) -> bool
        ensures { result ≡ has self mask }
    {
        match self {
            Hash::Sha256 => mask % 2 == 1,
            Hash::Sha512 => mask / 4 % 2 == 1,
        }
    }

    // The hash that a mask names alone; SHA-512 where it does not.
    // Kept: beside try_from, since docs/CONTRACTS.md names it, and it answers for every mask.
    pub fn named(mask: u64) -> Hash
        ensures { result ≡ named mask }
    {
        Hash::try_from(mask).unwrap_or(Hash::Sha512)
    }

    // The longest hash that both sides have.
    pub fn common(offered: u64, hashes: u64) -> Option<Hash>
        ensures { result ≡ cond (in_common offered hashes) (Some (chosen offered hashes)) None }
    {
        [Hash::Sha512, Hash::Sha256]
            .iter()
            .copied()
            .find(|hash| hash.is_in(offered) && hash.is_in(hashes))
    }

    // The same; SHA-256 where they have none.
    // Kept: beside common, since docs/CONTRACTS.md names it, and it answers for every two masks.
    pub fn chosen(offered: u64, hashes: u64) -> Hash
        ensures { result ≡ chosen offered hashes }
    {
        Hash::common(offered, hashes).unwrap_or(Hash::Sha256)
    }
}

// Whether a mask names one hash alone.
pub fn names_one(mask: u64) -> bool
    ensures { result ≡ names_one mask }
{
    Hash::try_from(mask).is_ok()
}

// Whether orders may allow these: one of the two, or both.
pub fn good_allowed(hashes: u64) -> bool
    ensures { result ≡ good_allowed hashes }
{
    matches!(hashes, 1 | 4 | 5)
}

// Whether a mask names one hash alone, and that is an allowed one.
pub fn allowed_one(hashes: u64, mask: u64) -> bool
    ensures { result ≡ allowed_one hashes mask }
{
    Hash::try_from(mask).is_ok_and(|hash| hash.is_in(hashes))
}

// Whether both sides have a hash.
// Kept: beside common, since docs/CONTRACTS.md names it.
pub fn in_common(offered: u64, hashes: u64) -> bool
    ensures { result ≡ in_common offered hashes }
{
    Hash::common(offered, hashes).is_some()
}
