// What stands at the front of a line.
ghost use Rattle.std.specs.Prelude.{◌≡◌, ◌+◌, length};

// The bytes at the front that are of a kind, and what is behind them.
fn split_while<F: Fn(&u8) -> bool>(rest: &[u8], is_of_kind: F) -> (&[u8], &[u8])
    requires { F.IsAlwaysCallable is_of_kind }
    ensures { length result.0.now + length result.1.now ≡ length rest.now }
{
    match rest.iter().position(|byte| !is_of_kind(byte)) {
        Some(end) => rest.split_at(end),
        None => (rest, &[]),
    }
}

pub fn split_name(rest: &[u8]) -> (&[u8], &[u8])
    ensures { length result.0.now + length result.1.now ≡ length rest.now }
{
    split_while(rest, |byte| byte.is_ascii_alphanumeric())
}

pub fn split_digits(rest: &[u8]) -> (&[u8], &[u8])
    ensures { length result.0.now + length result.1.now ≡ length rest.now }
{
    split_while(rest, |byte| byte.is_ascii_digit())
}
