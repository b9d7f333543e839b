ghost use Rattle.std.specs.Prelude.{◌≡◌, ℕ};
ghost use Rattle.shared_map.specs.Found.{halves_of};

/// What a key of 64 bits is listed as.
pub trait Key: Drop {
    /// How a key is listed.
    ghost listed: { ℕ → Self };

    /// The key, as it is listed.
    fn of(key: u64) -> Self
        ensures { result ≡ listed key };
}

/// The key itself.
impl Key for u64 {
    ghost listed = { λ key. key };

    fn of(key: u64) -> u64 {
        key
    }
}

/// The upper 32 bits of the key, and the lower 32.
impl Key for (u32, u32) {
    ghost listed = { λ key. halves_of key };

    fn of(key: u64) -> (u32, u32) {
        ((key / 4_294_967_296) as u32, (key % 4_294_967_296) as u32)
    }
}
