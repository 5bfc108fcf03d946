//! Laws about what words ask for, each the contract of a function without code.
ghost use Rattle.std.specs.Prelude.{◌≡◌, ◌≢◌, ℕ, List, [], ◌∷◌, Ok, Err, codes, if◌then◌else◌};
ghost use Rattle.clap.specs.Words.{fault_of};
ghost use Rattle.sc_args.specs.Laws.{IsPlainWord};
ghost use Rattle.sc_args.specs.Words.{asked_of, bad_file, conflicts, is_file_name, parse, project, superc_app, tokens, usage};

/// Each command is taken, whatever the program's name is. A word that begins with a hyphen may be
/// a flag.
pub fn commands_are_taken()
    ensures tokens { (program space file : List ℕ) → IsPlainWord space → IsPlainWord file
        → asked_of (program ∷ codes "tokens" ∷ space ∷ file ∷ [])
        ≡ (if is_file_name file then Ok (tokens space file) else Err bad_file) }
    ensures parse { (program space file : List ℕ) → IsPlainWord space → IsPlainWord file
        → asked_of (program ∷ codes "parse" ∷ space ∷ file ∷ [])
        ≡ (if is_file_name file then Ok (parse space file) else Err bad_file) }
    ensures project { (program space file : List ℕ) → IsPlainWord space → IsPlainWord file
        → asked_of (program ∷ codes "project" ∷ space ∷ file ∷ [])
        ≡ (if is_file_name file then Ok (project space file []) else Err bad_file) }
    ensures choice { (program space file choice : List ℕ) → IsPlainWord space → IsPlainWord file → IsPlainWord choice
        → asked_of (program ∷ codes "project" ∷ space ∷ file ∷ choice ∷ [])
        ≡ (if is_file_name file then Ok (project space file (choice ∷ [])) else Err bad_file) }
    ensures conflicts { (program : List ℕ) → asked_of (program ∷ codes "conflicts" ∷ []) ≡ Ok conflicts }
{}

/// Words in which `clap` finds no error name a command with all that it requires.
pub fn taken_words_name_a_command()
    ensures { (words : List (List ℕ)) → fault_of superc_app words ≡ [] → asked_of words ≢ Err usage }
{}

/// No word, an unknown word, a word too few, a word too many and requests for help are misuse.
pub fn misuse_is_refused()
    ensures none { (program : List ℕ) → asked_of (program ∷ []) ≡ Err usage }
    ensures unknown { (program : List ℕ) → asked_of (program ∷ codes "frob" ∷ []) ≡ Err usage }
    ensures few { (program : List ℕ) → asked_of (program ∷ codes "tokens" ∷ codes "a" ∷ []) ≡ Err usage }
    ensures few_to_project { (program : List ℕ) → asked_of (program ∷ codes "project" ∷ codes "a" ∷ []) ≡ Err usage }
    ensures many_to_parse { (program : List ℕ) → asked_of (program ∷ codes "parse" ∷ codes "a" ∷ codes "b" ∷ codes "c" ∷ []) ≡ Err usage }
    ensures many { (program : List ℕ) → asked_of (program ∷ codes "conflicts" ∷ codes "x" ∷ []) ≡ Err usage }
    ensures help { (program : List ℕ) → asked_of (program ∷ codes "tokens" ∷ codes "--help" ∷ []) ≡ Err usage }
    ensures help_command { (program : List ℕ) → asked_of (program ∷ codes "help" ∷ []) ≡ Err usage }
{}
