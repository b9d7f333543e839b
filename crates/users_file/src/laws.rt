ghost use Rattle.users_file.specs.Laws.{BadIsNone, HasOneBadRow, HasOneTable};

/// The laws of tables of users: a text is the table of one list of tokens and users, or it has one row that is the
/// first to break the form. It does nothing when it runs.
pub fn table_laws()
    ensures one_table { HasOneTable }
    ensures bad_is_none { BadIsNone }
    ensures one_bad_row { HasOneBadRow }
{}
