//! That answers are read back as they were stored.
ghost use Rattle.stored.specs.RoundTrip.{RoundTrip};

/// What `encode` writes is read back by `decode` as the same answers, no other bytes are, and different answers have different files.
pub fn reads_back()
    ensures { RoundTrip }
{}
