// A filler that keeps packets off the rim of a plane: where a plane has elevators off its outermost rows and columns,
// routers point at those alone. Ties are settled as random-offline settles them.
ghost use Rattle.std.specs.Prelude.{◌≡◌, ◌*◌, ◌<◌, ◌≤◌, length, take, filter};
ghost use Rattle.routing_laws.specs.Ties.{tie_half, tie_next};
ghost use Rattle.house_rules.specs.Filling.{inner, offered, offering};
ghost use Rattle.routing_laws.proofs.Ties.{tie_long, tie_small};
ghost use Rattle.house_rules.specs.Offering.{inner_lawful};

use crate::toward::TowardDestination;
use mesh::{Place, Sizes, TurnOrder};
use routing::{Chooser, Filler, Places, RandomOffline, Task, list_passing};

#[derive(Clone, Copy)]
pub struct InnerElevators {
    pub order: TurnOrder,
}

// Whether a place lies off the outermost rows and columns.
fn is_inner(sizes: Sizes, place: Place) -> bool
    ensures { result ≡ inner sizes.width sizes.height place }
{
    0 < place.x && place.x < sizes.width - 1 && 0 < place.y && place.y < sizes.height - 1
}

impl<C: Chooser> Filler<C> for InnerElevators {
    ghost half = { λ f t c. tie_half C.Chooser.position C.Chooser.after f.order (offering t) c };

    ghost next = { λ f t c. tie_next C.Chooser.position C.Chooser.after f.order (offering t) c };

    type Guide = TowardDestination;

    ghost partner = { λ f. record { order = f.order } };

    ghost long = { λ f t c. tie_long C.Chooser.position C.Chooser.after f.order (offering t) c };

    ghost small = { λ f t c. tie_small C.Chooser.position C.Chooser.after f.order (offering t) c };

    ghost lawful = { λ f t c some_columns some_rows some inside. inner_lawful C.Chooser.position C.Chooser.after C.Chooser.within f.order t c some_columns some_rows };

    fn guide(&self) -> TowardDestination {
        TowardDestination { order: self.order }
    }

    fn fill(&self, task: Task, chooser: &mut C, bytes: &mut [u8]) {
        let mut inner = Places::new();
        list_passing(
            task.elevators,
            |elevator| is_inner(task.sizes, *elevator),
            &mut inner,
        );
        let none_inner = inner.is_empty();
        let elevators = if none_inner { task.elevators } else { &inner };
        let filler = RandomOffline { order: self.order };
        let offer = Task {
            sizes: task.sizes,
            plane: task.plane,
            way: task.way,
            elevators,
        };
        filler.fill(offer, chooser, bytes);
    }
}
