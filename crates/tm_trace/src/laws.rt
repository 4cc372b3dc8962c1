//! Laws of traces: what is printed is read again, and what is read can be asked.
ghost use Rattle.std.specs.Prelude.{◌≡◌, ◌<◌, ◌++◌, ℕ, true, List, length, Ok, IsSome};
ghost use Rattle.std.specs.List.{list_all};
ghost use Rattle.tm_word.specs.Prelude.{Text, Word, is_word, joined, words_of};
ghost use Rattle.tm_rules.specs.Types.{Request};
ghost use Rattle.tm_rules.specs.Prelude.{Trace, is_execute, is_path_word, is_request, item_is_request, learned_line};
ghost use Rattle.tm_line.specs.Names.{is_path};
ghost use Rattle.tm_line.specs.DomainWords.{ends_domain};
ghost use Rattle.tm_entry.specs.Entries.{is_entry};
ghost use Rattle.tm_trace.specs.Printing.{request_words, request_text, attribute_words, attributes_text, trace_text};
ghost use Rattle.tm_trace.specs.Reading.{request_at, request_of, trace_of, tree_line_at};
ghost use Rattle.tm_trace.specs.Written.{is_trace_request, IsTrace, EachAsked};

/// Traces, as laws over every trace and every text: a trace that a text can write is printed as a
/// text that is read as this trace, and each trace that is read is one that a text can write, with
/// a line for each of its trees.
pub fn round_trip()
    ensures again { (t : Trace) → IsTrace t → trace_of (trace_text t) ≡ Ok t }
    ensures read { (text : Text) (t : Trace) → trace_of text ≡ Ok t → IsTrace t }
    ensures normal { (text : Text) (t : Trace) → trace_of text ≡ Ok t
        → trace_of (trace_text t) ≡ Ok t }
    ensures tree_lines { (text : Text) (t : Trace) (n : ℕ) → trace_of text ≡ Ok t → n < length t
        → IsSome (tree_line_at text n) }
{}

/// Requests, as laws over every request and all words: the line of a request is read as its
/// arguments and its permission whatever words follow it, but one that begins with `/`; its line
/// and its attributes are read as the request; what is read is a request that words can write; and
/// its printed words are words, which are found again in its text.
pub fn requests()
    ensures line { (r : Request) (more : List Text) → is_trace_request r ≡ true
        → ends_domain more ≡ true
        → request_at (request_words r ++ more) ≡ Ok (r.args, r.perm, more) }
    ensures again { (r : Request) → is_trace_request r ≡ true
        → request_of (request_words r ++ attribute_words r.attributes) ≡ Ok r }
    ensures read { (words : List Text) (r : Request) → request_of words ≡ Ok r
        → is_trace_request r ≡ true }
    ensures words { (r : Request) → is_trace_request r ≡ true
        → list_all is_word (request_words r ++ attribute_words r.attributes) ≡ true }
    ensures text { (r : Request) → joined (request_words r ++ attribute_words r.attributes)
        ≡ request_text r ++ attributes_text r }
    ensures found { (r : Request) → is_trace_request r ≡ true
        → words_of (request_text r ++ attributes_text r) ≡ request_words r
        ++ attribute_words r.attributes }
{}

/// What is read can be asked, as laws over every text and all words: each request of a trace that
/// is read is one that the engine takes, with its names, numbers and addresses within what a line
/// can write.
pub fn asked()
    ensures bounded { (text : Text) (t : Trace) → trace_of text ≡ Ok t
        → EachAsked (item_is_request is_path) t }
    ensures request { (words : List Text) (r : Request) → request_of words ≡ Ok r
        → is_request is_path r ≡ true }
    // The line that is learned for it is one that a policy can write.
    ensures learned { (r : Request) (name : Word) → is_request is_path r ≡ true
        → (is_execute r ≡ true → is_path_word name ≡ true) → is_entry (learned_line r name) ≡ true }
{}
