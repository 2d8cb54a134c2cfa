// The secrets of the hash-based schemes.
use lmots::secret::OneTimeSecret;
use lms::secret::TreeSecret;

#[derive(Drop)]
pub enum HashBasedSecret {
    OneTime(OneTimeSecret),
    Tree(TreeSecret),
}
