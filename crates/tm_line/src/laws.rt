//! Laws of arguments: what is printed is read again, and what is read can be printed.
ghost use Rattle.std.specs.Prelude.{◌≡◌, ◌<◌, ◌^◌, ◌++◌, ℕ, Bool, true, List, Ok, Result};
ghost use Rattle.std.specs.Fmt.{decimal};
ghost use Rattle.std.specs.List.{list_all};
ghost use Rattle.tm_word.specs.Prelude.{Pattern, Text, Word, is_solid, is_word, joined, spell, spelled_pattern, words_of};
ghost use Rattle.tm_addr.specs.Range.{Range};
ghost use Rattle.tm_addr.specs.AddrRange.{AddrRange};
ghost use Rattle.tm_addr.specs.Numbers.{range_spelling};
ghost use Rattle.tm_addr.specs.Printing.{addr_range_spelling};
ghost use Rattle.tm_domain.specs.Grammar.{is_right};
ghost use Rattle.tm_domain.specs.NameUnion.{NameUnion};
ghost use Rattle.tm_domain.specs.NumberUnion.{NumberUnion};
ghost use Rattle.tm_domain.specs.AddrUnion.{AddrUnion};
ghost use Rattle.tm_domain.specs.Words.{DomainName};
ghost use Rattle.tm_domain.specs.Transition.{is_domain_name};
ghost use Rattle.tm_domain.specs.Names.{is_path};
ghost use Rattle.tm_line.specs.declared.permissions.Row.{Row};
ghost use Rattle.tm_line.specs.Permissions.{perms_of, perms_spelling};
ghost use Rattle.tm_line.specs.Arguments.{group_word, pattern_word, range_word, addr_range_word, name_word, number_word, address_word, plain_word};
ghost use Rattle.tm_line.specs.Domains.{domain_at, domain_to_end};
ghost use Rattle.tm_line.specs.DomainWords.{domain_parts, ends_domain};
ghost use Rattle.tm_line.specs.Printing.{name_spelling, number_spelling, address_spelling};
ghost use Rattle.tm_line.specs.Written.{is_group, is_name, is_range, is_number, is_addr_range, is_address, is_set};

/// Arguments, as laws over every value and every text: a value that a line can write is printed as
/// a text that is read as this value, and each value that is read is one that a line can write. A
/// domain name is read from its words whatever follows them, but a word that begins with `/`.
pub fn round_trip()
    ensures group { (g : Word) → is_group g ≡ true → group_word (spell g) ≡ Ok g }
    ensures group_read { (text : Text) (g : Word) → group_word text ≡ Ok g
        → (text ≡ spell g) × (is_group g ≡ true) }
    ensures pattern { (p : Pattern) → is_right p ≡ true → pattern_word (spelled_pattern p) ≡ Ok p }
    ensures pattern_read { (text : Text) (p : Pattern) → pattern_word text ≡ Ok p
        → (text ≡ spelled_pattern p) × (is_right p ≡ true) }
    ensures range { (r : Range) → is_range r ≡ true → range_word (range_spelling r) ≡ Ok r }
    ensures range_read { (text : Text) (r : Range) → range_word text ≡ Ok r → is_range r ≡ true }
    ensures addr_range { (r : AddrRange) → is_addr_range r ≡ true
        → addr_range_word (addr_range_spelling r) ≡ Ok r }
    ensures addr_range_read { (text : Text) (r : AddrRange) → addr_range_word text ≡ Ok r
        → is_addr_range r ≡ true }
    ensures name { (n : NameUnion) → is_name n ≡ true → name_word (name_spelling n) ≡ Ok n }
    ensures name_read { (text : Text) (n : NameUnion) → name_word text ≡ Ok n → is_name n ≡ true }
    ensures number { (n : NumberUnion) → is_number n ≡ true
        → number_word (number_spelling n) ≡ Ok n }
    ensures number_read { (text : Text) (n : NumberUnion) → number_word text ≡ Ok n
        → is_number n ≡ true }
    ensures address { (n : AddrUnion) → is_address n ≡ true
        → address_word (address_spelling n) ≡ Ok n }
    ensures address_read { (text : Text) (n : AddrUnion) → address_word text ≡ Ok n
        → is_address n ≡ true }
    ensures plain { (limit n : ℕ) → n < limit → n < 2 ^ 64 → plain_word limit (decimal n) ≡ Ok n }
    ensures plain_read { (limit : ℕ) (text : Text) (n : ℕ) → plain_word limit text ≡ Ok n
        → n < limit }
    ensures perms { (acl_row : Row) (bits : ℕ) (last : Bool) → is_set acl_row bits ≡ true
        → perms_of acl_row (perms_spelling acl_row bits) last ≡ Ok bits }
    ensures perms_read { (acl_row : Row) (word : Text) (last : Bool) (bits : ℕ)
        → perms_of acl_row word last ≡ Ok bits → is_set acl_row bits ≡ true }
    ensures domain { (name : DomainName) (more : List Text) → is_domain_name is_path name ≡ true
        → ends_domain more ≡ true → domain_at (domain_parts name ++ more) ≡ Ok (name, more) }
    ensures domain_read { (words : List Text) (name : DomainName) (rest : List Text)
        → domain_at words ≡ Ok (name, rest) → is_domain_name is_path name ≡ true }
    ensures to_end { (name : DomainName) → is_domain_name is_path name ≡ true
        → domain_to_end (domain_parts name) ≡ Ok name }
    ensures to_end_read { (words : List Text) (name : DomainName) → domain_to_end words ≡ Ok name
        → is_domain_name is_path name ≡ true }
{}

/// Printed words, as laws over every value: what a line can write is printed as words of a line,
/// none of them empty and none with a byte that separates words; and words that are joined by
/// single spaces are found again as the words of the line.
pub fn printed_words()
    ensures again { (words : List Text) → list_all is_word words ≡ true
        → words_of (joined words) ≡ words }
    ensures group { (g : Word) → is_group g ≡ true → is_solid (spell g) ≡ true }
    ensures pattern { (p : Pattern) → is_right p ≡ true → is_solid (spelled_pattern p) ≡ true }
    ensures name { (n : NameUnion) → is_name n ≡ true → is_word (name_spelling n) ≡ true }
    ensures number { (n : NumberUnion) → is_number n ≡ true → is_word (number_spelling n) ≡ true }
    ensures address { (n : AddrUnion) → is_address n ≡ true → is_word (address_spelling n) ≡ true }
    ensures perms { (acl_row : Row) (bits : ℕ) → is_set acl_row bits ≡ true
        → is_word (perms_spelling acl_row bits) ≡ true }
    ensures path { (text : Text) → is_path text ≡ true → is_word text ≡ true }
    ensures domain { (name : DomainName) → is_domain_name is_path name ≡ true
        → list_all is_word (domain_parts name) ≡ true }
{}
