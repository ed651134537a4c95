//! The value of a field's word.

ghost use Rattle.std.specs.Prelude.{◌≡◌};
ghost use Rattle.barriers.specs.Values.{value_of as value_of_word};

use heap_history::Value;
use heap_words::FieldWord;

/// The value of a field's word: no address is part of it.
pub fn value_of(word: FieldWord) -> Value
    ensures { result ≡ value_of_word word }
{
    match word {
        FieldWord::Num(n) => Value::Num(n),
        FieldWord::Link { birth, .. } => Value::Object(birth),
    }
}
