ghost use Rattle.vx_name.specs.Laws.{NameIsRead, NameReadsAsItself, IdIsRead, IdReadsAsItself};

/// What is read as a name is one, and each name is read as itself. So it is with ids.
pub fn words_read_as_themselves()
    ensures name { NameIsRead }
    ensures name_again { NameReadsAsItself }
    ensures id { IdIsRead }
    ensures id_again { IdReadsAsItself }
{}
