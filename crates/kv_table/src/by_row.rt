// Cases by row.

/// Goes by cases on the number of a row. Each case stands under the name that the table's module gives its row; the
/// last one is for all other rows. With a second value, each case has a pattern of that value too.
///
/// ```text
/// by_row!(rule, step.rule; { CLOSE => two(..), IMP_R => one(..) } else Err(..))
/// by_row!(rule, step.rule, numbers; { CLOSE [left, right] => .., IMP_R [place] => .. } else Err(..))
/// ```
#[macro_export]
macro_rules! by_row {
    ($table:ident, $row:expr; { $($name:ident => $case:expr),+ $(,)? } else $other:expr) => {
        match $row {
            $($table::$name => $case,)+
            _ => $other,
        }
    };
    ($table:ident, $row:expr, $value:expr; { $($name:ident $pattern:pat => $case:expr),+ $(,)? } else $other:expr) => {
        match ($row, $value) {
            $(($table::$name, $pattern) => $case,)+
            _ => $other,
        }
    };
}

pub(crate) use by_row;
