// Which bytes may name a task or an object.

ghost use Rattle.std.specs.Prelude.{◌≡◌};
ghost use Rattle.app_image.specs.Names.{names_service, is_service_name, is_free_name};

use kern_base::Service;
use text_lex::is_name;

// How many services have a number.
const SERVICES: u32 = 39;

// Whether a service with a number from 1 to `last` has this name.
fn names_service(last: u32, name: &[u8]) -> bool
    ensures { result ≡ names_service last name.now }
{
    let mut number = last;
    while number > 0 {
        if Service::of(number).text().as_bytes() == name {
            return true;
        }
        number -= 1;
    }
    false
}

#[tactic(auto, unfolding(crate::specs::Names::is_service_name))]
fn is_service_name(name: &[u8]) -> bool
    ensures { result ≡ is_service_name name.now }
{
    names_service(SERVICES, name)
}

/// Whether a task or an object may have this name.
pub fn is_free_name(name: &[u8]) -> bool
    ensures { result ≡ is_free_name name.now }
{
    is_name(name) && !is_service_name(name)
}
