// Heads compared.
ghost use Rattle.std.specs.Prelude.{◌≡◌};
ghost use Rattle.model.specs.TextReading.{begins};

// Whether a text begins with a head.
pub fn has_head(text: &[u8], head: &[u8]) -> bool
    ensures { result ≡ begins head.now text.now }
{
    text.starts_with(head)
}
