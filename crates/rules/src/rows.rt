// The holder of a row in a slot that is not used. A derive needs a case that holds nothing.
ghost use Rattle.std.specs.Prelude.{◌≡◌};
ghost use Rattle.rules.specs.declared.Holder.TheVariants.{TaskOn};

use crate::Holder;

impl Default for Holder {
    ghost is_default = { λ h. h ≡ TaskOn 0 0 };

    fn default() -> Self {
        Holder::TaskOn {
            machine: 0,
            task: 0,
        }
    }
}
