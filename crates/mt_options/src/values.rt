//! The values of options.
ghost use Rattle.std.specs.Prelude.{◌≡◌, option_copied};
ghost use Rattle.mt_options.specs.Values.{value_of};

use mt_model::Text;
use mt_target::QueryOption;

/// The value of the first option of that name, which is compared exactly; none where no option has it.
pub fn value_of<'a>(options: &'a [QueryOption], name: &[u8]) -> Option<&'a Text>
    ensures { option_copied result ≡ value_of name.now options.now }
{
    for option in options {
        if option.name.as_str().as_bytes() == name {
            return Some(&option.value);
        }
    }
    None
}
