//! A law of the words that policies and profiles have for the same thing.
ghost use Rattle.std.specs.Prelude.{◌≡◌, map};
ghost use Rattle.tm_rules.specs.Types.{Args, row_functions};
ghost use Rattle.tm_profile.specs.Slots.{function_text};
ghost use Rattle.tm_text.specs.PermissionWords.{permission_texts};

/// Each permission of a line has the function in profiles that its word tells, `open` for reading,
/// writing and appending: the functions of a row are as many as its permissions, and stand in the
/// row's order.
pub fn permissions_name_functions()
    ensures { (args : Args) → map function_text (row_functions args) ≡ permission_texts args }
{}
