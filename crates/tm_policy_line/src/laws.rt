//! Laws about the lines of policy files, nothing to run.
ghost use Rattle.std.specs.Prelude.{◌≡◌, ◌<◌, ℕ, Bool, true, List, Ok};
ghost use Rattle.std.specs.List.{list_all};
ghost use Rattle.tm_word.specs.Prelude.{Text, is_word, joined};
ghost use Rattle.tm_rules.specs.Types.{DomainRule, Entry, ExceptLine, ExceptRule, FileKind, GroupLine, ManagerRule, PolicyLine, ProfileLine};
ghost use Rattle.tm_rules.specs.Prelude.{DomainName, is_domain_name};
ghost use Rattle.tm_line.specs.Names.{is_path};
ghost use Rattle.tm_line.specs.DomainWords.{domain_parts};
ghost use Rattle.tm_line.specs.Namespaces.{IsNamespace};
ghost use Rattle.tm_entry.specs.Entries.{entry_words, is_entry};
ghost use Rattle.tm_except.specs.Reading.{line};
ghost use Rattle.tm_except.specs.Printing.{line_words};
ghost use Rattle.tm_profile.specs.Reading.{line_of as profile_of};
ghost use Rattle.tm_policy_line.specs.Reading.{read_words, read_line};
ghost use Rattle.tm_policy_line.specs.Printing.{deleted, profile_words, group_words, quota_words, failed_words, domain_rule_words, non_root_words, manager_words, manager_rule_words, group_line_words};
ghost use Rattle.tm_policy_line.specs.Written.{is_manager_text, is_domain_rule, is_manager_rule, is_written_rule, IsWrittenLine};

/// What is printed is read as that line: each form of a domain, manager and exception line, with or
/// without `delete` in front, whose names, numbers and entries are lawful.
pub fn lines_again()
    ensures choose_again { (name : DomainName) → is_domain_name is_path name ≡ true
        → read_words FileKind.Domain (domain_parts name)
        ≡ Ok (PolicyLine.Domain (DomainRule.Choose name)) }
    ensures profile_again { (n : ℕ) → n < 256
        → read_words FileKind.Domain (profile_words n)
        ≡ Ok (PolicyLine.Domain (DomainRule.UseProfile n)) }
    ensures group_again { (delete : Bool) (n : ℕ) → n < 256
        → read_words FileKind.Domain (deleted delete (group_words n))
        ≡ Ok (PolicyLine.Domain (DomainRule.UseGroup delete n)) }
    ensures quota_again { (delete : Bool)
        → read_words FileKind.Domain (deleted delete quota_words)
        ≡ Ok (PolicyLine.Domain (DomainRule.QuotaExceeded delete)) }
    ensures failed_again { (delete : Bool)
        → read_words FileKind.Domain (deleted delete failed_words)
        ≡ Ok (PolicyLine.Domain (DomainRule.TransitionFailed delete)) }
    ensures acl_again { (delete : Bool) (entry : Entry) → is_entry entry ≡ true
        → read_words FileKind.Domain (deleted delete (entry_words entry))
        ≡ Ok (PolicyLine.Domain (DomainRule.Acl delete entry)) }
    ensures domain_again { (rule : DomainRule) → is_domain_rule rule ≡ true
        → read_words FileKind.Domain (domain_rule_words rule) ≡ Ok (PolicyLine.Domain rule) }
    ensures non_root_again { (delete : Bool)
        → read_words FileKind.Manager (deleted delete non_root_words)
        ≡ Ok (PolicyLine.Manager delete ManagerRule.ByNonRoot) }
    ensures manager_again { (delete : Bool) (name : Text) → is_manager_text name ≡ true
        → read_words FileKind.Manager (deleted delete (manager_words name))
        ≡ Ok (PolicyLine.Manager delete (ManagerRule.Name name)) }
    ensures exception_again { (delete : Bool) (ns : Text) (rule : ExceptRule) → IsNamespace ns
        → is_written_rule rule ≡ true
        → read_words FileKind.Exception (line_words (line delete ns rule))
        ≡ Ok (PolicyLine.Exception (line delete ns rule)) }
    ensures acl_group_again { (group : GroupLine) → IsNamespace group.namespace → group.group < 256
        → is_entry group.entry ≡ true
        → read_words FileKind.Exception (group_line_words group) ≡ Ok (PolicyLine.Group group) }
    // A profile line is read as tm_profile reads it.
    ensures profile_line { (words : List Text) (found : ProfileLine) → profile_of words ≡ Ok found
        → read_words FileKind.Profile words ≡ Ok (PolicyLine.Profile found) }
{}

/// The printed words of lines are words, none of them empty and none with a byte that separates
/// words; so reading the line that joins them is reading them.
pub fn printed_words()
    ensures joined { (file : FileKind) (words : List Text) → list_all is_word words ≡ true
        → read_line file (joined words) ≡ read_words file words }
    ensures domain { (rule : DomainRule) → is_domain_rule rule ≡ true
        → list_all is_word (domain_rule_words rule) ≡ true }
    ensures manager { (name : Text) → is_manager_text name ≡ true
        → list_all is_word (manager_words name) ≡ true }
    ensures manager_rule { (delete : Bool) (rule : ManagerRule) → is_manager_rule rule ≡ true
        → list_all is_word (deleted delete (manager_rule_words rule)) ≡ true }
    ensures acl_group { (group : GroupLine) → is_word group.namespace ≡ true → group.group < 256
        → is_entry group.entry ≡ true → list_all is_word (group_line_words group) ≡ true }
{}

/// What is read can be written: a line that a text gives is one that a text can write, and a domain
/// name that a line chooses is a right domain name.
pub fn lines_read()
    ensures read_written { (file : FileKind) (text : Text) (found : PolicyLine)
        → read_line file text ≡ Ok found
        → IsWrittenLine found }
    ensures words_written { (file : FileKind) (words : List Text) (found : PolicyLine)
        → list_all is_word words ≡ true
        → read_words file words ≡ Ok found → IsWrittenLine found }
    ensures chosen_right { (file : FileKind) (text : Text) (name : DomainName)
        → read_line file text ≡ Ok (PolicyLine.Domain (DomainRule.Choose name))
        → is_domain_name is_path name ≡ true }
{}

/// Each line that can be written, but those of profiles, is what its printed text gives.
pub fn texts_again()
    ensures domain { (rule : DomainRule) → IsWrittenLine (PolicyLine.Domain rule)
        → read_line FileKind.Domain (joined (domain_rule_words rule))
        ≡ Ok (PolicyLine.Domain rule) }
    ensures manager { (delete : Bool) (rule : ManagerRule)
        → IsWrittenLine (PolicyLine.Manager delete rule)
        → read_line FileKind.Manager (joined (deleted delete (manager_rule_words rule)))
        ≡ Ok (PolicyLine.Manager delete rule) }
    ensures exception { (found : ExceptLine) → IsWrittenLine (PolicyLine.Exception found)
        → read_line FileKind.Exception (joined (line_words found))
        ≡ Ok (PolicyLine.Exception found) }
    ensures acl_group { (group : GroupLine) → IsWrittenLine (PolicyLine.Group group)
        → read_line FileKind.Exception (joined (group_line_words group))
        ≡ Ok (PolicyLine.Group group) }
{}

/// A domain's name, and a manager, is the text of its words.
pub fn printed_lines()
    ensures { (name : DomainName) → joined (domain_parts name) ≡ name }
{}
