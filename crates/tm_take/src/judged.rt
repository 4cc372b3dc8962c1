//! What a look shows.
use tm_types::verdict::Verdict;
use tm_word::Text;

/// What a look shows: the verdict, and the audit text that is written of it if the take ends with
/// this look.
#[derive(Drop)]
pub struct Judged {
    pub verdict: Verdict,
    pub audit: Option<Text>,
}
