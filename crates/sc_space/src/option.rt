ghost use Rattle.std.specs.Prelude.{◌≡◌, ◌++◌, codes, decimal};
ghost use Rattle.sc_model.specs.Bytes.{same_bytes};
ghost use Rattle.sc_model.specs.Space.{option_word};
ghost use Rattle.sc_space.specs.Seen.{seen_option};
ghost use Rattle.sc_space.specs.SpaceFile.{same_option};

use itoa::Buffer;
use sc_base::Kind;

/// A preprocessing token of a replacement list, with its spelling.
#[derive(Debug, Drop)]
pub struct SpelledItem {
    pub kind: Kind,
    pub spelling: Vec<u8>,
    /// White space stands before it.
    pub space: bool,
}

/// One option of a configuration variable: the name starts without a definition, or as a macro
/// without arguments that stands for the number or for the text.
#[derive(Debug, Drop)]
pub enum VariableOption {
    Undefined,
    Number(u64),
    Text {
        text: String,
        /// The replacement list that the text is.
        items: Vec<SpelledItem>,
    },
}

/// Whether the two are one option, where texts are compared whole.
pub(crate) fn same_option(a: &VariableOption, b: &VariableOption) -> bool
    ensures { result ≡ same_option (seen_option a.now) (seen_option b.now) }
{
    match (a, b) {
        (VariableOption::Undefined, VariableOption::Undefined) => true,
        (VariableOption::Number(a), VariableOption::Number(b)) => *a == *b,
        (VariableOption::Text { text: a, .. }, VariableOption::Text { text: b, .. }) => {
            a.as_str() == b.as_str()
        }
        _ => false,
    }
}

/// Whether the option of this index is written so: a text as `t` and the index.
pub(crate) fn is_written(index: usize, option: &VariableOption, word: &str) -> bool
    ensures { result ≡ same_bytes word.now (option_word index (seen_option option.now)) }
{
    match option {
        VariableOption::Undefined => word == "undef",
        VariableOption::Number(number) => word == Buffer::new().format(*number),
        VariableOption::Text { .. } => is_text_word(index, word.as_bytes()),
    }
}

fn is_text_word(index: usize, word: &[u8]) -> bool
    ensures { result ≡ same_bytes word.now (codes "t" ++ decimal index) }
{
    match word {
        [b't', rest @ ..] => rest == Buffer::new().format(index).as_bytes(),
        _ => false,
    }
}
