//! Laws of images. Each function is a fact for the crates above, which call it.
ghost use Rattle.topology_map.specs.SomeMap.{CrcsExist, ImagesExist, TopologyMapsExist};

/// A law: all quadlets have a CRC, each body has an image, and each bus tree has a topology map in
/// each generation, whatever memory there is to make them.
pub fn images_exist()
    ensures crcs { CrcsExist }
    ensures images { ImagesExist }
    ensures maps { TopologyMapsExist }
{}
