ghost use Rattle.std.specs.List.{after_first, before_first, list_any, position};
ghost use Rattle.std.specs.Prelude.{MatchOption, false, true, ◌==◌, ◌≡◌};

/// Where the byte first stands.
pub fn position_of(bytes: &[u8], mark: u8) -> Option<usize>
    ensures { result ≡ position (λ byte. byte == mark) bytes.now }
{
    bytes.iter().position(|byte| *byte == mark)
}

/// What stands before the first byte `mark`, or all, and what stands after it, or nothing.
pub fn cut(bytes: &[u8], mark: u8) -> (&[u8], &[u8])
    ensures before { result.0.now ≡ before_first (λ byte. byte == mark) bytes.now }
    ensures after { result.1.now ≡ after_first (λ byte. byte == mark) bytes.now }
{
    match position_of(bytes, mark) {
        Some(at) => (&bytes[..at], &bytes[at + 1..]),
        None => (bytes, &[]),
    }
}

/// What stands before and after the first byte `mark`, if it stands there.
pub fn split_once(bytes: &[u8], mark: u8) -> Option<(&[u8], &[u8])>
    ensures { MatchOption result (list_any (λ byte. byte == mark) bytes.now ≡ false)
        (λ parts. (list_any (λ byte. byte == mark) bytes.now ≡ true)
        × (parts.0.now ≡ before_first (λ byte. byte == mark) bytes.now)
        × (parts.1.now ≡ after_first (λ byte. byte == mark) bytes.now)) }
{
    let at = position_of(bytes, mark)?;
    Some((&bytes[..at], &bytes[at + 1..]))
}
