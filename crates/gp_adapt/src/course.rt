//! What an adapting coordinator remembers of its calls.
ghost use Rattle.std.specs.Prelude.{◌≡◌, ◌≤◌};
ghost use Rattle.gp_adapt.specs.Courses.{opening, moved, begins, after_clash, scene_of};

use crate::scene::{MOST_CLASHES, Scene};
use std::marker::Model;

/// What an adapting coordinator remembers of its calls: whether there was one, and the scene.
///
/// A contract sees these, and the number of calls without a collision that make a calm.
#[derive(Drop)]
pub struct Course {
    calm: u32,
    begun: bool,
    scene: Scene,
}

impl Model for Course {
    ghost use Rattle.std.specs.Prelude.{◌<◌, ◌≤◌};
    ghost use Rattle.gp_adapt.specs.Courses.{CourseState};
    ghost use Rattle.gp_adapt.specs.Codes.{course_code};
    ghost use Rattle.gp_adapt.specs.declared.scene.TheConstants.{MOST_CLASHES};

    ghost Value = { CourseState };

    ghost coded = { course_code };

    ghost view = { λ c. record { calm = c.calm; begun = c.begun; clashes = c.scene.clashes; quiet = c.scene.quiet } };

    ghost invariant = { λ c. (c.scene.clashes ≤ MOST_CLASHES) × (c.scene.quiet < c.calm) };
}

impl Course {
    /// The state before the first call. `calm` calls without a collision make a calm.
    pub(crate) fn new(calm: u32) -> Course
        requires { 1 ≤ calm }
        ensures { result ≡ opening calm }
    {
        Course {
            calm,
            begun: false,
            scene: Scene {
                clashes: 0,
                quiet: 0,
            },
        }
    }

    /// Returns to the state before the first call.
    pub(crate) fn reset(&mut self)
        ensures { self.new ≡ opening self.old.calm }
    {
        self.begun = false;
        self.scene = Scene {
            clashes: 0,
            quiet: 0,
        };
    }

    /// The scene, which the closure is given.
    pub fn scene(&self) -> Scene
        ensures { result ≡ scene_of self.now }
    {
        self.scene
    }

    /// Counts one more call, and returns whether it begins a round.
    pub(crate) fn advance(&mut self, clashed: bool) -> bool
        ensures moved { self.new ≡ moved self.old clashed }
        ensures begins { result ≡ begins self.old clashed }
    {
        if !self.begun {
            self.begun = true;
            return true;
        }
        if clashed {
            self.clash();
            return true;
        }
        self.scene.quiet += 1;
        if self.scene.quiet < self.calm {
            return false;
        }
        let returns = self.scene.clashes > 0;
        self.scene = Scene {
            clashes: 0,
            quiet: 0,
        };
        returns
    }

    // Counts one more collision.
    fn clash(&mut self)
        ensures { self.new ≡ after_clash self.old }
    {
        self.scene.clashes = MOST_CLASHES.min(self.scene.clashes + 1);
        self.scene.quiet = 0;
    }
}
