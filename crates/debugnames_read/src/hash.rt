//! The hash of a name (DWARF 5, sections 6.1.1.4.5 and 7.33).

ghost use Rattle.std.specs.Prelude.{◌≡◌, nat_le};
ghost use Rattle.std.specs.List.{list_any};
ghost use Rattle.index_model.specs.Hashes.{name_hash};

/// The hash of a name. Letters count in lower case.
#[tactic(auto, unfolding(index_model::specs::Hashes::name_hash))]
pub(crate) fn name_hash(name: &[u8]) -> u32
    ensures { result ≡ name_hash name.now }
{
    name.iter().fold(5381u32, |hash, byte| {
        hash.wrapping_mul(33)
            .wrapping_add(u32::from(byte.to_ascii_lowercase()))
    })
}

/// Whether a name has a byte from 80 on. Its hash isn't fixed: it goes by how letters past Z count in lower case.
pub(crate) fn is_beyond_ascii(name: &[u8]) -> bool
    ensures { result ≡ list_any (λ c. nat_le 0x80 c) name.now }
{
    name.iter().any(|byte| *byte >= 0x80)
}
