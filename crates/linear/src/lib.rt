// Vectors, quaternions and matrices of three rows, by value. Each result is a formula of `law` at the rounded operations;
// docs/ARITHMETIC.md lists the orders.
#![tactic(auto)]

ghost use Rattle.std.specs.Prelude.{◌≡◌};
ghost use Rattle.linear.specs.Vectors as Vectors;
ghost use Rattle.linear.specs.Quaternions as Quaternions;
ghost use Rattle.linear.specs.Matrices as Matrices;

#[derive(Clone, Copy)]
pub struct Vec3 {
    pub x: f64,
    pub y: f64,
    pub z: f64,
}

// Methods and not std's operators, so that each contract stands beside its formula. Add and sub, and scale and divide, of a quaternion too, are alike but
// for an operator: one function with the operator as a parameter would have a contract that its caller has to state.
impl Vec3 {
    #[tactic(auto, unfolding(crate::specs::Vectors::zero, law::specs::Vector::zero))]
    pub fn zero() -> Vec3
        ensures { result ≡ Vectors.zero }
    {
        Vec3 {
            x: 0.0,
            y: 0.0,
            z: 0.0,
        }
    }

    #[tactic(auto, unfolding(crate::specs::Vectors::add, law::specs::Vector::add))]
    pub fn add(self, other: Vec3) -> Vec3
        ensures { result ≡ Vectors.add self other }
    {
        Vec3 {
            x: self.x + other.x,
            y: self.y + other.y,
            z: self.z + other.z,
        }
    }

    #[tactic(auto, unfolding(crate::specs::Vectors::sub, law::specs::Vector::sub))]
    pub fn sub(self, other: Vec3) -> Vec3
        ensures { result ≡ Vectors.sub self other }
    {
        Vec3 {
            x: self.x - other.x,
            y: self.y - other.y,
            z: self.z - other.z,
        }
    }

    #[tactic(auto, unfolding(crate::specs::Vectors::neg, law::specs::Vector::neg))]
    pub fn neg(self) -> Vec3
        ensures { result ≡ Vectors.neg self }
    {
        Vec3 {
            x: -self.x,
            y: -self.y,
            z: -self.z,
        }
    }

    #[tactic(auto, unfolding(crate::specs::Vectors::scale, law::specs::Vector::scale))]
    pub fn scale(self, k: f64) -> Vec3
        ensures { result ≡ Vectors.scale self k }
    {
        Vec3 {
            x: self.x * k,
            y: self.y * k,
            z: self.z * k,
        }
    }

    #[tactic(auto, unfolding(crate::specs::Vectors::divide, law::specs::Vector::divide))]
    pub fn divide(self, k: f64) -> Vec3
        ensures { result ≡ Vectors.divide self k }
    {
        Vec3 {
            x: self.x / k,
            y: self.y / k,
            z: self.z / k,
        }
    }

    #[tactic(auto, unfolding(crate::specs::Vectors::cross, law::specs::Vector::cross))]
    pub fn cross(self, other: Vec3) -> Vec3
        ensures { result ≡ Vectors.cross self other }
    {
        Vec3 {
            x: self.y * other.z - self.z * other.y,
            y: self.z * other.x - self.x * other.z,
            z: self.x * other.y - self.y * other.x,
        }
    }

    #[tactic(auto, unfolding(crate::specs::Vectors::dot, law::specs::Vector::dot))]
    pub fn dot(self, other: Vec3) -> f64
        ensures { result ≡ Vectors.dot self other }
    {
        self.x * other.x + self.y * other.y + self.z * other.z
    }

    #[tactic(auto, unfolding(crate::specs::Vectors::norm_squared, law::specs::Vector::norm_squared))]
    pub fn norm_squared(self) -> f64
        ensures { result ≡ Vectors.norm_squared self }
    {
        self.x * self.x + self.y * self.y + self.z * self.z
    }

    #[tactic(auto, unfolding(crate::specs::Vectors::norm, crate::specs::Vectors::norm_squared, law::specs::Vector::norm))]
    pub fn norm(self) -> f64
        ensures { result ≡ Vectors.norm self }
    {
        float::sqrt(self.norm_squared())
    }
}

#[derive(Clone, Copy)]
pub struct Quaternion {
    pub w: f64,
    pub x: f64,
    pub y: f64,
    pub z: f64,
}

impl Quaternion {
    #[tactic(auto, unfolding(crate::specs::Quaternions::identity, law::specs::Quaternion::identity))]
    pub fn identity() -> Quaternion
        ensures { result ≡ Quaternions.identity }
    {
        Quaternion {
            w: 1.0,
            x: 0.0,
            y: 0.0,
            z: 0.0,
        }
    }

    // The vector part.
    #[tactic(auto, unfolding(crate::specs::Quaternions::vector, law::specs::Quaternion::vector))]
    pub fn vector(self) -> Vec3
        ensures { result ≡ Quaternions.vector self }
    {
        Vec3 {
            x: self.x,
            y: self.y,
            z: self.z,
        }
    }

    #[tactic(auto, unfolding(crate::specs::Quaternions::norm, law::specs::Quaternion::norm, law::specs::Quaternion::norm_squared))]
    pub fn norm(self) -> f64
        ensures { result ≡ Quaternions.norm self }
    {
        float::sqrt((self.x * self.x + self.z * self.z) + (self.y * self.y + self.w * self.w))
    }

    #[tactic(auto, unfolding(crate::specs::Quaternions::divide, law::specs::Quaternion::divide))]
    pub fn divide(self, k: f64) -> Quaternion
        ensures { result ≡ Quaternions.divide self k }
    {
        Quaternion {
            w: self.w / k,
            x: self.x / k,
            y: self.y / k,
            z: self.z / k,
        }
    }

    #[tactic(auto, unfolding(crate::specs::Quaternions::normalize, crate::specs::Quaternions::norm, crate::specs::Quaternions::divide, law::specs::Quaternion::normalize))]
    pub fn normalize(self) -> Quaternion
        ensures { result ≡ Quaternions.normalize self }
    {
        self.divide(self.norm())
    }

    #[tactic(auto, unfolding(crate::specs::Quaternions::mul, law::specs::Quaternion::mul))]
    pub fn mul(self, other: Quaternion) -> Quaternion
        ensures { result ≡ Quaternions.mul self other }
    {
        Quaternion {
            w: self.w * other.w - self.x * other.x - self.y * other.y - self.z * other.z,
            x: self.w * other.x + self.x * other.w + self.y * other.z - self.z * other.y,
            y: self.w * other.y - self.x * other.z + self.y * other.w + self.z * other.x,
            z: self.w * other.z + self.x * other.y - self.y * other.x + self.z * other.w,
        }
    }

    #[tactic(auto, unfolding(crate::specs::Quaternions::conjugate, law::specs::Quaternion::conjugate))]
    pub fn conjugate(self) -> Quaternion
        ensures { result ≡ Quaternions.conjugate self }
    {
        Quaternion {
            w: self.w,
            x: -self.x,
            y: -self.y,
            z: -self.z,
        }
    }

    pub fn rotate(self, p: Vec3) -> Vec3
        ensures { result ≡ Quaternions.rotate self p }
    {
        let u = self.vector();
        let c = u.cross(p).scale(2.0);
        c.scale(self.w).add(u.cross(c)).add(p)
    }

    #[tactic(auto, unfolding(crate::specs::Quaternions::rotation_matrix, law::specs::Quaternion::rotation_matrix))]
    pub fn rotation_matrix(self) -> Mat3
        ensures { result ≡ Quaternions.rotation_matrix self }
    {
        let ww = self.w * self.w;
        let ii = self.x * self.x;
        let jj = self.y * self.y;
        let kk = self.z * self.z;
        let ij = self.x * self.y * 2.0;
        let wk = self.w * self.z * 2.0;
        let wj = self.w * self.y * 2.0;
        let ik = self.x * self.z * 2.0;
        let jk = self.y * self.z * 2.0;
        let wi = self.w * self.x * 2.0;
        Mat3 {
            row0: Vec3 {
                x: ww + ii - jj - kk,
                y: ij - wk,
                z: wj + ik,
            },
            row1: Vec3 {
                x: wk + ij,
                y: ww - ii + jj - kk,
                z: jk - wi,
            },
            row2: Vec3 {
                x: ik - wj,
                y: wi + jk,
                z: ww - ii - jj + kk,
            },
        }
    }
}

// Three by three, by rows.
#[derive(Clone, Copy)]
pub struct Mat3 {
    pub row0: Vec3,
    pub row1: Vec3,
    pub row2: Vec3,
}

impl Mat3 {
    #[tactic(auto, unfolding(crate::specs::Matrices::zero))]
    pub fn zero() -> Mat3
        ensures { result ≡ Matrices.zero }
    {
        Mat3 {
            row0: Vec3::zero(),
            row1: Vec3::zero(),
            row2: Vec3::zero(),
        }
    }

    #[tactic(auto, unfolding(crate::specs::Matrices::identity, law::specs::Matrix::identity))]
    pub fn identity() -> Mat3
        ensures { result ≡ Matrices.identity }
    {
        Mat3 {
            row0: Vec3 {
                x: 1.0,
                y: 0.0,
                z: 0.0,
            },
            row1: Vec3 {
                x: 0.0,
                y: 1.0,
                z: 0.0,
            },
            row2: Vec3 {
                x: 0.0,
                y: 0.0,
                z: 1.0,
            },
        }
    }

    // The matrix of the cross product with a.
    #[tactic(auto, unfolding(crate::specs::Matrices::hat, law::specs::Matrix::hat))]
    pub fn hat(a: Vec3) -> Mat3
        ensures { result ≡ Matrices.hat a }
    {
        Mat3 {
            row0: Vec3 {
                x: 0.0,
                y: -a.z,
                z: a.y,
            },
            row1: Vec3 {
                x: a.z,
                y: 0.0,
                z: -a.x,
            },
            row2: Vec3 {
                x: -a.y,
                y: a.x,
                z: 0.0,
            },
        }
    }

    // Add and sub are alike but for the operation of the rows, as those of vectors are, and two for the same reason.
    #[tactic(auto, unfolding(crate::specs::Matrices::add, crate::specs::Vectors::add, law::specs::Matrix::add))]
    pub fn add(self, other: Mat3) -> Mat3
        ensures { result ≡ Matrices.add self other }
    {
        Mat3 {
            row0: self.row0.add(other.row0),
            row1: self.row1.add(other.row1),
            row2: self.row2.add(other.row2),
        }
    }

    #[tactic(auto, unfolding(crate::specs::Matrices::sub, crate::specs::Vectors::sub, law::specs::Matrix::sub))]
    pub fn sub(self, other: Mat3) -> Mat3
        ensures { result ≡ Matrices.sub self other }
    {
        Mat3 {
            row0: self.row0.sub(other.row0),
            row1: self.row1.sub(other.row1),
            row2: self.row2.sub(other.row2),
        }
    }

    #[tactic(auto, unfolding(crate::specs::Matrices::neg, crate::specs::Vectors::neg, law::specs::Matrix::neg))]
    pub fn neg(self) -> Mat3
        ensures { result ≡ Matrices.neg self }
    {
        Mat3 {
            row0: self.row0.neg(),
            row1: self.row1.neg(),
            row2: self.row2.neg(),
        }
    }

    #[tactic(auto, unfolding(crate::specs::Matrices::scale, crate::specs::Vectors::scale, law::specs::Matrix::scale))]
    pub fn scale(self, k: f64) -> Mat3
        ensures { result ≡ Matrices.scale self k }
    {
        Mat3 {
            row0: self.row0.scale(k),
            row1: self.row1.scale(k),
            row2: self.row2.scale(k),
        }
    }

    #[tactic(auto, unfolding(crate::specs::Matrices::transpose, law::specs::Matrix::transpose))]
    pub fn transpose(self) -> Mat3
        ensures { result ≡ Matrices.transpose self }
    {
        Mat3 {
            row0: Vec3 {
                x: self.row0.x,
                y: self.row1.x,
                z: self.row2.x,
            },
            row1: Vec3 {
                x: self.row0.y,
                y: self.row1.y,
                z: self.row2.y,
            },
            row2: Vec3 {
                x: self.row0.z,
                y: self.row1.z,
                z: self.row2.z,
            },
        }
    }

    // This matrix times a column.
    #[tactic(auto, unfolding(crate::specs::Matrices::apply, crate::specs::Vectors::dot, law::specs::Matrix::apply))]
    pub fn apply(self, p: Vec3) -> Vec3
        ensures { result ≡ Matrices.apply self p }
    {
        Vec3 {
            x: self.row0.dot(p),
            y: self.row1.dot(p),
            z: self.row2.dot(p),
        }
    }

    #[tactic(auto, unfolding(crate::specs::Matrices::mul, crate::specs::Matrices::row_by, law::specs::Matrix::mul))]
    pub fn mul(self, other: Mat3) -> Mat3
        ensures { result ≡ Matrices.mul self other }
    {
        Mat3 {
            row0: row_by(self.row0, other),
            row1: row_by(self.row1, other),
            row2: row_by(self.row2, other),
        }
    }
}

// A row times a matrix.
#[tactic(auto, unfolding(crate::specs::Matrices::row_by, law::specs::Matrix::row_by))]
fn row_by(a: Vec3, m: Mat3) -> Vec3
    ensures { result ≡ Matrices.row_by a m }
{
    Vec3 {
        x: a.x * m.row0.x + a.y * m.row1.x + a.z * m.row2.x,
        y: a.x * m.row0.y + a.y * m.row1.y + a.z * m.row2.y,
        z: a.x * m.row0.z + a.y * m.row1.z + a.z * m.row2.z,
    }
}
